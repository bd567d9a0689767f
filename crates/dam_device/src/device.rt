//! A reader and a writer that keep whether they failed, over ones that count their calls, so that contracts can say
//! both. The wrapped device is reached only through `read`, `write` and `flush`, and none of them may come after
//! a failure.
ghost use Rattle.std.specs.Prelude.{◌≡◌, ◌<◌, ◌≤◌, ◌+◌, true, false, length, MatchResult, IfOk, IfErr, OnOk};
ghost use Rattle.std.specs.Io.KnownBytes.{Appends, ReadConsumes, WriteAppends, Keeps};
ghost use Rattle.dam_device.specs.Device.{IsFlushedOnce, TakesFront, one_more};

use crate::counted::{CountedReader, CountedWriter};
use std::io::{Read, Write};
use std::marker::Model;

/// The most bytes that a program asks a [`Source`] for at a time: the length of its buffer.
pub const CHUNK: usize = 65_536;

/// A device refused.
#[derive(Clone, Copy, PartialEq, Eq, Debug)]
pub struct DeviceFailed;

/// A writer refused after it had taken this many bytes of a text: all of them, if it failed to flush them.
#[derive(Clone, Copy, PartialEq, Eq, Debug)]
pub struct WriteFailed {
    pub written: usize,
}

/// A reader, of which contracts also say how often it was asked and whether it failed.
///
/// It serves any number of runs until it fails. After that it isn't asked again: a further run needs a new `Source`.
#[derive(Drop)]
pub struct Source<R: Read> {
    reader: CountedReader<R>,
    failed: bool,
}

impl<R: Read> Model for Source<R> {
    ghost use Rattle.dam_device.specs.Device.{SourceState};

    ghost Value = { SourceState R };

    ghost view = { λ s. record {
      inner = s.reader.inner;
      unread = s.reader.unread;
      asked = s.reader.asked;
      failed = s.failed;
    } };
}

impl<R: Read> Source<R> {
    /// A reader that wasn't asked yet.
    pub fn new(inner: R) -> Source<R>
        ensures { result ≡ record {
          inner = inner;
          unread = R.remaining inner;
          asked = 0;
          failed = false;
        } }
    {
        Source {
            reader: CountedReader::new(inner),
            failed: false,
        }
    }

    /// How often it was asked. The count stays at `u64::MAX`.
    pub fn asked(&self) -> u64
        ensures { result ≡ self.now.asked }
    {
        self.reader.asked()
    }

    /// One read. Any error is a failure, one that asks to try again too.
    pub fn read(&mut self, buf: &mut [u8]) -> Result<usize, DeviceFailed>
        requires { self.old.failed ≡ false }
        ensures bound { IfOk result (λ count. count ≤ length buf.new) }
        ensures room { length buf.new ≡ length buf.old }
        ensures bytes { ReadConsumes self.old.unread self.new.unread result buf.new }
        ensures asked { self.new.asked ≡ one_more self.old.asked }
        ensures cause { MatchResult result
            (λ _. self.new.failed ≡ false)
            (λ _. self.new.failed ≡ true) }
    {
        match self.reader.read(buf) {
            Ok(count) => Ok(count),
            Err(_) => {
                self.failed = true;
                Err(DeviceFailed)
            }
        }
    }
}

/// A writer, of which contracts also say how often it was asked and flushed, whether it failed, and whether it was
/// flushed after all that it took.
///
/// It serves any number of runs until it fails. After that it isn't asked again: a further run needs a new `Sink`.
#[derive(Drop)]
pub struct Sink<W: Write> {
    writer: CountedWriter<W>,
    failed: bool,
    flushed: bool,
}

impl<W: Write> Model for Sink<W> {
    ghost use Rattle.dam_device.specs.Device.{SinkState};

    ghost Value = { SinkState W };

    ghost view = { λ s. record {
      inner = s.writer.inner;
      taken = s.writer.taken;
      asked = s.writer.asked;
      flushes = s.writer.flushes;
      failed = s.failed;
      flushed = s.flushed;
    } };
}

impl<W: Write> Sink<W> {
    /// A writer that wasn't asked yet.
    pub fn new(inner: W) -> Sink<W>
        ensures { result ≡ record {
          inner = inner;
          taken = W.contents inner;
          asked = 0;
          flushes = 0;
          failed = false;
          flushed = false;
        } }
    {
        Sink {
            writer: CountedWriter::new(inner),
            failed: false,
            flushed: false,
        }
    }

    /// One write. Any error is a failure, and so is an answer that no byte was taken.
    pub fn write(&mut self, buf: &[u8]) -> Result<usize, DeviceFailed>
        requires unfailed { self.old.failed ≡ false }
        requires some { 0 < length buf.now }
        ensures bound { IfOk result (λ count. (0 < count) × (count ≤ length buf.now)) }
        ensures bytes { WriteAppends self.old.taken self.new.taken result buf.now }
        ensures asked { self.new.asked ≡ one_more self.old.asked }
        ensures flushes { self.new.flushes ≡ self.old.flushes }
        ensures flushed { self.new.flushed ≡ false }
        ensures cause { MatchResult result
            (λ _. self.new.failed ≡ false)
            (λ _. self.new.failed ≡ true) }
    {
        self.flushed = false;
        match self.writer.write(buf) {
            Ok(0) | Err(_) => {
                self.failed = true;
                Err(DeviceFailed)
            }
            Ok(count) => Ok(count),
        }
    }

    /// One flush: the writer passes on the bytes that it has buffered.
    pub fn flush(&mut self) -> Result<(), DeviceFailed>
        requires { self.old.failed ≡ false }
        ensures bytes { Keeps self.old.taken self.new.taken }
        ensures asked { self.new.asked ≡ self.old.asked }
        ensures flushes { self.new.flushes ≡ one_more self.old.flushes }
        ensures cause { MatchResult result
            (λ _. self.new.failed ≡ false)
            (λ _. self.new.failed ≡ true) }
        ensures flushed { OnOk result (self.new.flushed ≡ true) }
    {
        self.flushed = false;
        if self.writer.flush().is_err() {
            self.failed = true;
            return Err(DeviceFailed);
        }
        self.flushed = true;
        Ok(())
    }

    /// Writes the text, and flushes the writer once after its last byte.
    ///
    /// The first failure of the writer ends it. The writer is asked at most once for each byte of the text.
    pub fn write_text(&mut self, text: &[u8]) -> Result<(), WriteFailed>
        requires { self.old.failed ≡ false }
        ensures done { OnOk result (Appends self.old.taken self.new.taken text.now) }
        ensures fault { IfErr result (λ fault.
            TakesFront self.old.taken self.new.taken fault.written text.now) }
        ensures cause { MatchResult result
            (λ _. self.new.failed ≡ false)
            (λ _. self.new.failed ≡ true) }
        ensures flushed { OnOk result (IsFlushedOnce self.old self.new) }
        ensures flushes { self.new.flushes ≤ self.old.flushes + 1 }
        ensures asked { self.new.asked ≤ self.old.asked + length text.now }
    {
        let mut written = 0;
        while written < text.len() {
            match self.write(&text[written..]) {
                Err(_) => return Err(WriteFailed { written }),
                Ok(count) => written += count,
            }
        }
        if self.flush().is_err() {
            return Err(WriteFailed { written });
        }
        Ok(())
    }
}

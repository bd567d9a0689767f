//! A reader and a writer that count their calls, so that contracts can say how often a device was called. The wrapped
//! device is reached only through the three calls below. Only tests show that each of them makes just one call of it
//! and does nothing more.
ghost use Rattle.std.specs.Prelude.{◌≡◌, ◌≤◌, length, IfOk};
ghost use Rattle.std.specs.Io.KnownBytes.{ReadConsumes, WriteAppends, Keeps};
ghost use Rattle.dam_device.specs.Device.{one_more};

use std::io;
use std::io::{Read, Write};
use std::marker::Model;

/// A reader, and how often it was asked.
#[derive(Drop)]
pub(crate) struct CountedReader<R: Read> {
    inner: R,
    asked: u64,
}

impl<R: Read> Model for CountedReader<R> {
    ghost use Rattle.dam_device.specs.inside.Counted.{ReaderState};

    ghost Value = { ReaderState R };

    ghost view = { λ r. record {
      inner = r.inner;
      unread = R.remaining r.inner;
      asked = r.asked;
    } };
}

impl<R: Read> CountedReader<R> {
    /// A reader that wasn't asked yet.
    pub(crate) fn new(inner: R) -> CountedReader<R>
        ensures { result ≡ record { inner = inner; unread = R.remaining inner; asked = 0 } }
    {
        CountedReader { inner, asked: 0 }
    }

    /// How often it was asked. The count stays at `u64::MAX`.
    pub(crate) fn asked(&self) -> u64
        ensures { result ≡ self.now.asked }
    {
        self.asked
    }

    /// One read.
    pub(crate) fn read(&mut self, buf: &mut [u8]) -> io::Result<usize>
        ensures bound { IfOk result (λ count. count ≤ length buf.new) }
        ensures room { length buf.new ≡ length buf.old }
        ensures bytes { ReadConsumes self.old.unread self.new.unread result buf.new }
        ensures asked { self.new.asked ≡ one_more self.old.asked }
    {
        self.asked = self.asked.saturating_add(1);
        self.inner.read(buf)
    }
}

/// A writer, and how often it was asked to take bytes and to flush.
#[derive(Drop)]
pub(crate) struct CountedWriter<W: Write> {
    inner: W,
    asked: u64,
    flushes: u64,
}

impl<W: Write> Model for CountedWriter<W> {
    ghost use Rattle.dam_device.specs.inside.Counted.{WriterState};

    ghost Value = { WriterState W };

    ghost view = { λ w. record {
      inner = w.inner;
      taken = W.contents w.inner;
      asked = w.asked;
      flushes = w.flushes;
    } };
}

impl<W: Write> CountedWriter<W> {
    /// A writer that wasn't asked yet.
    pub(crate) fn new(inner: W) -> CountedWriter<W>
        ensures { result ≡ record {
          inner = inner;
          taken = W.contents inner;
          asked = 0;
          flushes = 0;
        } }
    {
        CountedWriter {
            inner,
            asked: 0,
            flushes: 0,
        }
    }

    /// One write.
    pub(crate) fn write(&mut self, buf: &[u8]) -> io::Result<usize>
        ensures bound { IfOk result (λ count. count ≤ length buf.now) }
        ensures bytes { WriteAppends self.old.taken self.new.taken result buf.now }
        ensures asked { self.new.asked ≡ one_more self.old.asked }
        ensures flushes { self.new.flushes ≡ self.old.flushes }
    {
        self.asked = self.asked.saturating_add(1);
        self.inner.write(buf)
    }

    /// One flush.
    pub(crate) fn flush(&mut self) -> io::Result<()>
        ensures bytes { Keeps self.old.taken self.new.taken }
        ensures asked { self.new.asked ≡ self.old.asked }
        ensures flushes { self.new.flushes ≡ one_more self.old.flushes }
    {
        self.flushes = self.flushes.saturating_add(1);
        self.inner.flush()
    }
}

//! The writing of a run's whole text.

ghost use Rattle.std.specs.Prelude.{◌≡◌, ◌≤◌, ◌+◌, true, false, length, IfErr, OnOk, MatchResult};
ghost use Rattle.std.specs.Io.KnownBytes.{Appends};
ghost use Rattle.dam_device.specs.Device.{IsFlushedOnce};
ghost use Rattle.dam_engines.specs.Engine.{IsWritingFault};

use crate::fault::RunFault;
use dam_device::{Sink, WriteFailed};
use std::io::Write;

/// Writes the text, and flushes the writer once after its last byte.
///
/// The first failure of the writer ends it. If the flush fails, all bytes were written. The writer is asked at most
/// once for each byte of the text.
pub fn write_text<W: Write>(writer: &mut Sink<W>, text: &[u8]) -> Result<(), RunFault>
    requires { writer.old.failed ≡ false }
    ensures done { OnOk result (Appends writer.old.taken writer.new.taken text.now) }
    ensures fault { IfErr result (IsWritingFault writer.old.taken writer.new.taken text.now) }
    ensures cause { MatchResult result
        (λ _. writer.new.failed ≡ false)
        (λ _. writer.new.failed ≡ true) }
    ensures flushed { OnOk result (IsFlushedOnce writer.old writer.new) }
    ensures flushes { writer.new.flushes ≤ writer.old.flushes + 1 }
    ensures asked { writer.new.asked ≤ writer.old.asked + length text.now }
{
    match writer.write_text(text) {
        Ok(()) => Ok(()),
        Err(WriteFailed { written }) => Err(RunFault::Write { written }),
    }
}

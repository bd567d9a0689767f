//! Each text is flushed once, and a failed write says how many of its bytes were taken.
ghost use Rattle.std.specs.Prelude.{◌≡◌, false, IfErr, OnOk};
ghost use Rattle.std.specs.Io.KnownBytes.{Appends};
ghost use Rattle.dam_desk.specs.Device.{IsWriterAfter};
ghost use Rattle.dam_desk.specs.Faults.{IsWritingFault};

use crate::fault::DeskFault;
use dam_device::{Sink, WriteFailed};
use std::io::Write;

/// Writes the text, and flushes the writer once after its last byte. It isn't called for a text of no bytes.
pub(crate) fn write_text<W: Write>(writer: &mut Sink<W>, text: &[u8]) -> Result<(), DeskFault>
    requires { writer.old.failed ≡ false }
    ensures done { OnOk result (Appends writer.old.taken writer.new.taken text.now) }
    ensures fault { IfErr result
        (IsWritingFault writer.old.taken writer.new.taken text.now) }
    ensures writer { IsWriterAfter writer.old writer.new result }
{
    if text.is_empty() {
        return Ok(());
    }
    match writer.write_text(text) {
        Ok(()) => Ok(()),
        Err(WriteFailed { written }) => Err(DeskFault::Write { written }),
    }
}

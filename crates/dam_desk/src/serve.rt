//! Answers the lines that one read completes as one batch, before the next read.
ghost use Rattle.std.specs.Prelude.{◌≡◌, ℕ, List, false};
ghost use Rattle.dam_store.specs.Store.{is_broken};
ghost use Rattle.dam_desk.specs.Desk.{IsDesk, IsStoreAfter, ServesInput};
ghost use Rattle.dam_desk.specs.Device.{AreDevicesAfter};
ghost use Rattle.dam_desk.specs.DeskJournal.{DeskState};

use crate::desk::Desk;
use crate::fault::DeskFault;
use crate::output::write_text;
use dam_device::{CHUNK, Sink, Source};
use sqlite_disk::Disk;
use std::io::{Read, Write};

/// Prints the replies to the journal that the desk has, and then answers each line of the reader. The lines that end in
/// the bytes of one read are one batch.
///
/// A reader that was asked `u64::MAX` times isn't asked again: the desk ends as if that reader had failed.
pub(crate) fn serve<D: Disk, R: Read, W: Write>(
    desk: &mut Desk<D>,
    replies: &[u8],
    reader: &mut Source<R>,
    writer: &mut Sink<W>,
) -> Result<(), DeskFault>
    requires safe { is_broken desk.old.store ≡ false }
    requires reader { reader.old.failed ≡ false }
    requires writer { writer.old.failed ≡ false }
    ensures store { IsStoreAfter desk.old.store desk.new.store result }
    ensures lines { (state : DeskState) (begun : List ℕ) → IsDesk desk.old state begun
        → ServesInput desk.old desk.new state begun replies.now
        reader.old.unread reader.new.unread writer.old.taken writer.new.taken result }
    ensures devices { AreDevicesAfter reader.old reader.new writer.old writer.new result }
{
    let _safe = desk.is_safe(); // for the proof: what an open store has is safe
    write_text(writer, replies)?;
    let mut printed = replies.len();
    let mut chunk = [0; CHUNK];
    while reader.asked() < u64::MAX {
        let count = match reader.read(&mut chunk) {
            Ok(count) => count,
            Err(_) => return Err(DeskFault::Read),
        };
        if count == 0 {
            return match desk.write_end_answer(writer) {
                Ok(()) => Ok(()),
                Err(fault) => Err(fault.with_bytes_before(printed)),
            };
        }
        match desk.serve_batch(&chunk[..count], writer) {
            Ok(count) => printed = printed.saturating_add(count),
            Err(fault) => return Err(fault.with_bytes_before(printed)),
        }
    }
    Err(DeskFault::Read)
}

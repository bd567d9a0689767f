//! The run of a desk, from its disk before to its disk after.
ghost use Rattle.std.specs.Prelude.{◌≡◌, false, IsTrue, IfOk, IfErr, OnErr};
ghost use Rattle.dam_store.specs.declared.fault.FileFault.{FileFault};
ghost use Rattle.dam_desk.specs.Desk.{IsUnopened};
ghost use Rattle.dam_desk.specs.DeskRun.{EndsUnopened, IsRun};
ghost use Rattle.dam_desk.specs.Faults.{of_file};

use crate::fault::DeskFault;
use crate::laws::{journals_are_unambiguous, journals_grow, replies_are_answers};
use crate::open_desk::open_desk;
use crate::serve::serve;
use dam_book::Seed;
use dam_device::{Sink, Source};
use dam_store::open_file;
use sqlite_disk::Disk;
use sqlite_std_file::{FileFrom, Start};
use std::alloc::Global;
use std::io::{Read, Write};

/// A run at its end: whether it came to the end of its input, and the disk.
#[derive(Drop)]
pub(crate) struct EndedDesk<D: Disk> {
    pub(crate) result: Result<(), DeskFault>,
    pub(crate) disk: D,
}

/// Opens the journal on a disk, prints the replies to it, and answers each line of the reader.
pub(crate) fn run_desk<D: Disk + Drop, R: Read, W: Write>(
    alloc: Global,
    seed: Seed,
    disk: D,
    reader: &mut Source<R>,
    writer: &mut Sink<W>,
) -> EndedDesk<D>
    requires usable { IsTrue (D.Disk.is_usable disk) }
    requires reader { reader.old.failed ≡ false }
    requires writer { writer.old.failed ≡ false }
    ensures { IsRun D.Disk (D.Disk.seen disk) (D.Disk.faults disk)
        (IsUnopened D.Disk disk result.disk)
        reader.old reader.new writer.old writer.new result.disk result.result }
{
    journals_grow();
    replies_are_answers();
    journals_are_unambiguous();
    match open_desk(alloc, seed, disk) {
        Ok(opened) => {
            let mut desk = opened.desk;
            let result = serve(&mut desk, opened.replies.as_slice(), reader, writer);
            EndedDesk {
                result,
                disk: desk.store.into_disk(),
            }
        }
        Err(refused) => EndedDesk {
            result: Err(refused.why),
            disk: refused.disk,
        },
    }
}

/// Serves the journal in the file at `path`. `S` stands for the bytes that the file holds.
pub(crate) fn serve_file<S: Start, R: Read, W: Write>(
    rt: &HostRuntime,
    path: &str,
    start: S,
    reader: &mut Source<R>,
    writer: &mut Sink<W>,
) -> Result<EndedDesk<FileFrom<S>>, DeskFault>
    requires reader { reader.old.failed ≡ false }
    requires writer { writer.old.failed ≡ false }
    ensures run { IfOk result (λ ended. IsRun ⟦<FileFrom<S> as Disk>⟧ S.Start.db 0
        (EndsUnopened ⟦<FileFrom<S> as Disk>⟧ S.Start.db ended.disk)
        reader.old reader.new writer.old writer.new ended.disk ended.result) }
    ensures uncalled { OnErr result ((reader.new ≡ reader.old) × (writer.new ≡ writer.old)) }
    ensures cause { IfErr result (λ why. (fault : FileFault) × (why ≡ of_file fault)) }
{
    let disk = open_file(rt, path, start)?;
    Ok(run_desk(rt.alloc(), Seed::drawn(rt), disk, reader, writer))
}

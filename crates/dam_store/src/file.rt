//! A file is opened as a disk, and stays locked as long as that lives.
ghost use Rattle.std.specs.Prelude.{◌≡◌, IsTrue, IfOk, IfErr};
ghost use Rattle.sqlite_disk.specs.Disk.{Only};
ghost use Rattle.dam_store.specs.Faults.{IsOpeningFault};

use crate::fault::FileFault;
use sqlite_disk::Disk;
use sqlite_std_file::{FileFrom, Start, open};
use std::hash::RandomState;

/// The disk of the file at `path`, which is made if it is missing. The file stays locked until the disk is dropped, so a
/// second opener gets a fault. An empty file `PATH-wal` is made next to it, and locked while this call lasts.
///
/// `S` stands for the bytes that the file holds.
pub fn open_file<S: Start>(rt: &HostRuntime, path: &str, start: S) -> Result<FileFrom<S>, FileFault>
    ensures usable { IfOk result (λ file. IsTrue (⟦<FileFrom<S> as Disk>⟧.is_usable file)) }
    ensures clean { IfOk result (λ file. IsTrue (⟦<FileFrom<S> as Disk>⟧.is_clean file)) }
    ensures seen { IfOk result (λ file. ⟦<FileFrom<S> as Disk>⟧.seen file ≡ S.Start.db) }
    ensures synced { IfOk result
        (λ file. Only S.Start.db (⟦<FileFrom<S> as Disk>⟧.may_leave file)) }
    ensures no_fault { IfOk result (λ file. ⟦<FileFrom<S> as Disk>⟧.faults file ≡ 0) }
    ensures fault { IfErr result IsOpeningFault }
{
    // `open` draws a key too, but its error doesn't say that this failed.
    let _drawn = RandomState::new(rt).map_err(FileFault::NoRandomBytes)?;
    let files = open(rt, path, start)?;
    Ok(files.db)
}

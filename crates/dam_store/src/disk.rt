//! Bytes are written and synced by one call, which never retries, and a file is read whole.
ghost use Rattle.std.specs.Prelude.{◌≡◌, ◌⊎◌, ◌<◌, ◌≤◌, true, not, length, IsTrue, IfOk, IfErr, OnOk, OnErr};
ghost use Rattle.sqlite_disk.specs.Disk.{Torn, Holds, Follows, CountsFault};
ghost use Rattle.dam_store.specs.Limits.{most_file_bytes};
ghost use Rattle.dam_store.specs.Faults.{is_failed_read, is_failed_sync, is_failed_write, is_failure, is_refused_file};
ghost use Rattle.dam_store.specs.inside.Reading.{OnlyReads};
ghost use Rattle.dam_store.specs.inside.Synced.{IsReadWhole, IsSynced};
ghost use Rattle.dam_store.specs.declared.fault.StoreFault.TheVariants.{Memory};

use crate::fault::StoreFault;
use crate::limits::MOST_FILE_BYTES;
use sqlite_disk::Disk;
use std::alloc::Global;

/// Writes bytes and syncs the file.
///
/// Nothing is retried. After a failed sync `is_usable` forbids every call. After a failed write no clause can say that the write
/// isn't tried again, because a disk's clauses count failed calls from below only (`MoreFaults`): that is seen in the body.
pub(crate) fn write_and_sync<D: Disk>(
    disk: &mut D,
    at: usize,
    bytes: &[u8],
) -> Result<(), StoreFault>
    requires usable { IsTrue (D.Disk.is_usable disk.old) }
    requires some { 0 < length bytes.now }
    ensures synced { OnOk result (IsSynced D.Disk disk.new) }
    ensures written { OnOk result (Holds (D.Disk.seen disk.new) at bytes.now) }
    ensures others { Torn at (length bytes.now) (D.Disk.seen disk.old) (D.Disk.seen disk.new) }
    ensures crash { Follows (Torn at (length bytes.now))
        (D.Disk.may_leave disk.old) (D.Disk.may_leave disk.new) }
    ensures clean { D.Disk.is_clean disk.new ≡ D.Disk.is_clean disk.old }
    ensures faults { CountsFault result (D.Disk.faults disk.old) (D.Disk.faults disk.new) }
    ensures failure { IfErr result (λ fault. is_failure fault ≡ true) }
    ensures failed { IfErr result (λ fault. is_failed_write fault ≡ true) }
    ensures usable { IfErr result
        (λ fault. D.Disk.is_usable disk.new ≡ not (is_failed_sync fault)) }
{
    disk.write_at(at, bytes).map_err(StoreFault::Write)?;
    disk.sync().map_err(StoreFault::Sync)?;
    Ok(())
}

/// The bytes of the file.
pub(crate) fn read_file<D: Disk>(alloc: Global, disk: &mut D) -> Result<Vec<u8>, StoreFault>
    requires synced { IsSynced D.Disk disk.old }
    ensures read { IfOk result (λ bytes. IsReadWhole D.Disk disk.new bytes.items) }
    ensures short { IfOk result (λ bytes. length bytes.items ≤ most_file_bytes) }
    ensures reads { OnlyReads D.Disk disk.old disk.new result }
    ensures no_other { IfErr result (λ fault. (is_failed_read fault ≡ true)
        ⊎ (is_refused_file fault ≡ true) ⊎ (fault ≡ Memory)) }
    ensures usable { OnErr result (IsTrue (D.Disk.is_usable disk.new)) }
{
    let len = disk.len().map_err(StoreFault::Read)?;
    if len > MOST_FILE_BYTES {
        return Err(StoreFault::TooLong);
    }
    let mut bytes = vec![in alloc; 0u8; len]?;
    disk.read_at(0, bytes.as_mut_slice())
        .map_err(StoreFault::Read)?;
    Ok(bytes)
}

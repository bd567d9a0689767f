//! A store and its appends, each of two writes.
ghost use Rattle.std.specs.Prelude.{◌≡◌, ◌⊎◌, ◌+◌, ◌<◌, ◌≤◌, ◌++◌, ◌∷◌, ◌==◌, [], List, ℕ, true, false, not, length, drop, IsTrue, IfErr, OnOk, MatchResult};
ghost use Rattle.sqlite_disk.specs.Disk.{CountsFault, MoreFaults};
ghost use Rattle.dam_store.specs.Limits.{most_file_bytes};
ghost use Rattle.dam_store.specs.FileLines.{marked, bytes_on_disk, lines_in, StandsForEither};
ghost use Rattle.dam_store.specs.Faults.{is_failed_sync, is_failed_write, is_failure};
ghost use Rattle.dam_store.specs.inside.Shape.{IsFileAtRest};
ghost use Rattle.dam_store.specs.inside.Synced.{IsSynced, CrashLeaves};
ghost use Rattle.dam_store.specs.declared.fault.StoreFault.TheVariants.{Full, Broken};

use crate::batch::Batch;
use crate::disk::write_and_sync;
use crate::fault::StoreFault;
use crate::limits::MOST_FILE_BYTES;
use sqlite_disk::Disk;

/// A journal of lines on a disk.
#[derive(Drop)]
pub struct Store<D: Disk> {
    pub(crate) disk: D,
    pub(crate) end: usize,
    pub(crate) is_broken: bool,
    ghost room: { end < most_file_bytes },
    ghost synced: { is_broken ≡ false → IsSynced D.Disk disk },
    ghost closed: { is_broken ≡ false → IsTrue (D.Disk.is_clean disk)
        → IsFileAtRest (D.Disk.seen disk) end },
}

/// Writes a batch after the mark at `end` and syncs it, and only then opens the mark and syncs that.
fn commit_batch<D: Disk>(disk: &mut D, end: usize, batch: &Batch) -> Result<(), StoreFault>
    requires synced { IsSynced D.Disk disk.old }
    requires closed { IsTrue (D.Disk.is_clean disk.old)
        → IsFileAtRest (D.Disk.seen disk.old) end }
    requires some { (length batch.now == 0) ≡ false }
    requires room { end + 1 + length (drop 1 (marked batch.now ++ 45 ∷ [])) ≤ most_file_bytes }
    ensures synced { OnOk result (IsSynced D.Disk disk.new) }
    ensures closed { OnOk result (IsTrue (D.Disk.is_clean disk.new)
        → IsFileAtRest (D.Disk.seen disk.new)
        (end + length (drop 1 (marked batch.now ++ 45 ∷ [])))) }
    ensures lines { OnOk result (IsTrue (D.Disk.is_clean disk.new)
        → lines_in (D.Disk.seen disk.new) ≡ lines_in (D.Disk.seen disk.old) ++ batch.now) }
    ensures crash { CrashLeaves D.Disk disk.new
        (StandsForEither (lines_in (D.Disk.seen disk.old)) batch.now) }
    ensures clean { D.Disk.is_clean disk.new ≡ D.Disk.is_clean disk.old }
    ensures faults { CountsFault result (D.Disk.faults disk.old) (D.Disk.faults disk.new) }
    ensures failure { IfErr result (λ fault. is_failure fault ≡ true) }
    ensures failed { IfErr result (λ fault. is_failed_write fault ≡ true) }
    ensures usable { IfErr result
        (λ fault. D.Disk.is_usable disk.new ≡ not (is_failed_sync fault)) }
{
    let bytes = batch.bytes_after_mark();
    write_and_sync(disk, end + 1, bytes)?;
    write_and_sync(disk, end, b"+")?;
    Ok(())
}

impl<D: Disk> Store<D> {
    ghost use Rattle.dam_store.specs.Store.{disk_of, is_broken, held_lines, IsSafe, IsTidy};

    /// Appends the lines, all or none. At `Ok` each crash from then on leaves a file that stands for them.
    pub fn append(&mut self, batch: &Batch) -> Result<(), StoreFault>
        ensures ready { OnOk result (is_broken self.new ≡ false) }
        ensures no_fault { OnOk result (D.Disk.faults (disk_of self.new)
            ≡ D.Disk.faults (disk_of self.old)) }
        ensures acknowledged { OnOk result (IsTrue (D.Disk.is_clean (disk_of self.new))
            → held_lines self.new ≡ held_lines self.old ++ batch.now) }
        ensures safe { OnOk result (IsTrue (D.Disk.is_clean (disk_of self.new))
            → IsSafe self.new) }
        ensures tidy { OnOk result (IsTrue (D.Disk.is_clean (disk_of self.new))
            → IsTidy self.new) }
        ensures crash { is_broken self.old ≡ false
            → IsTrue (D.Disk.is_clean (disk_of self.new)) → (file : List ℕ)
            → D.Disk.may_leave (disk_of self.new) file
            → StandsForEither (held_lines self.old) batch.now file }
        ensures broken { is_broken self.old ≡ true → disk_of self.new ≡ disk_of self.old }
        ensures full { IfErr result (λ fault. fault ≡ Full
            → (disk_of self.new ≡ disk_of self.old) × (is_broken self.new ≡ false)
            × (IsTrue (D.Disk.is_clean (disk_of self.old))
            → most_file_bytes ≤ length (bytes_on_disk (held_lines self.old ++ batch.now)))) }
        ensures failure { IfErr result (λ fault. is_failure fault ≡ true
            → (is_broken self.new ≡ true)
            × MoreFaults (D.Disk.faults (disk_of self.old)) (D.Disk.faults (disk_of self.new))) }
        ensures no_other { IfErr result
            (λ fault. (is_failed_write fault ≡ true) ⊎ (fault ≡ Full)
            ⊎ ((fault ≡ Broken) × (is_broken self.old ≡ true))) }
        ensures usable { is_broken self.old ≡ false → MatchResult result
            (λ _. IsTrue (D.Disk.is_usable (disk_of self.new)))
            (λ fault. D.Disk.is_usable (disk_of self.new) ≡ not (is_failed_sync fault)) }
        ensures stays_broken { is_broken self.old ≡ true → is_broken self.new ≡ true }
        ensures clean { D.Disk.is_clean (disk_of self.new) ≡ D.Disk.is_clean (disk_of self.old) }
    {
        if self.is_broken {
            return Err(StoreFault::Broken);
        }
        if batch.is_empty() {
            return Ok(());
        }
        let len = batch.bytes_after_mark().len();
        if len > MOST_FILE_BYTES - 1 - self.end {
            return Err(StoreFault::Full);
        }
        self.is_broken = true;
        commit_batch(&mut self.disk, self.end, batch)?;
        self.end += len;
        self.is_broken = false;
        Ok(())
    }

    /// Whether a write or a sync has failed.
    pub fn is_broken(&self) -> bool
        ensures value { result ≡ is_broken self.now }
        ensures safe { is_broken self.now ≡ false
            → IsTrue (D.Disk.is_clean (disk_of self.now)) → IsSafe self.now }
        ensures usable { is_broken self.now ≡ false
            → IsTrue (D.Disk.is_usable (disk_of self.now)) }
    {
        self.is_broken
    }

    /// Gives the disk back.
    pub fn into_disk(self) -> D
        ensures { result ≡ disk_of self }
    {
        self.disk
    }
}

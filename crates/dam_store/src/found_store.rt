//! Finds the store in a file, and opens it.
ghost use Rattle.std.specs.Prelude.{◌≡◌, ◌⊎◌, List, ℕ, true, false, not, IsTrue, IfOk, IfErr};
ghost use Rattle.std.proofs.Props.{props};
ghost use Rattle.sqlite_disk.specs.Disk.{MoreFaults, Only};
ghost use Rattle.dam_store.specs.FileLines.{stands_for, text_of, StandsFor};
ghost use Rattle.dam_store.specs.StoreHistory.{Known, IsKnown, IsPossible};
ghost use Rattle.dam_store.specs.Faults.{is_failed_read, is_failed_sync, is_failed_write, is_failure, is_refused_file, IsRefused};
ghost use Rattle.dam_store.specs.inside.Synced.{IsRest};
ghost use Rattle.dam_store.specs.declared.fault.StoreFault.TheVariants.{Memory};

use crate::fault::StoreFault;
use crate::file_lines::sync_and_read;
use crate::recovery::repair;
use crate::store::Store;
use sqlite_disk::Disk;
use std::alloc::Global;

/// A store that was found on a disk, before the end of its file is repaired. Nothing was written yet.
#[derive(Drop)]
pub struct FoundStore<D: Disk> {
    /// The lines that it holds, with a newline at the end of each.
    pub text: Vec<u8>,
    pub(crate) disk: D,
    /// The end of the lines. None: the file was never made whole.
    pub(crate) end: Option<usize>,
    /// The bytes of the file from there on, or all.
    pub(crate) rest: Vec<u8>,
    ghost found: { IsRest D.Disk disk end rest.items } by { Prim.hlevel props },
}

/// A disk that holds no store that can be opened now, and why.
#[derive(Drop)]
pub struct UnopenedStore<D: Disk> {
    /// The fault that ended the finding or the opening.
    pub why: StoreFault,
    /// The disk, given back.
    pub disk: D,
}

impl<D: Disk> FoundStore<D> {
    ghost use Rattle.dam_store.specs.Store.{disk_of, found_on, is_broken, held_lines, IsSafe, IsTidy, IsUntouched};

    /// Finds the store in the file that a crash may have left, or in an empty one. It syncs and reads the file, and writes
    /// nothing.
    pub fn find(alloc: Global, mut disk: D) -> Result<FoundStore<D>, UnopenedStore<D>>
        requires { IsTrue (D.Disk.is_usable disk) }
        ensures text { IfOk result (λ found. IsTrue (D.Disk.is_clean (found_on found))
            → (lines : List (List ℕ)) × StandsFor lines (D.Disk.seen disk)
            × (found.text.items ≡ text_of lines)) }
        ensures untouched { IfOk result (λ found. IsUntouched D.Disk disk (found_on found)) }
        ensures synced { IfOk result
            (λ found. Only (D.Disk.seen disk) (D.Disk.may_leave (found_on found))) }
        ensures refused_untouched { IfErr result
            (λ unopened. IsUntouched D.Disk disk unopened.disk) }
        ensures no_fault { IfOk result
            (λ found. D.Disk.faults (found_on found) ≡ D.Disk.faults disk) }
        ensures failure { IfErr result (λ unopened. is_failure unopened.why ≡ true
            → MoreFaults (D.Disk.faults disk) (D.Disk.faults unopened.disk)) }
        ensures no_failure { IfErr result (λ unopened. is_failure unopened.why ≡ false
            → D.Disk.faults unopened.disk ≡ D.Disk.faults disk) }
        ensures refusal { IfErr result (λ unopened. is_refused_file unopened.why ≡ true
            → IsTrue (D.Disk.is_clean unopened.disk)
            → IsRefused (D.Disk.seen disk) unopened.why) }
        ensures no_other { IfErr result (λ unopened. (is_failed_read unopened.why ≡ true)
            ⊎ (is_failed_sync unopened.why ≡ true)
            ⊎ (is_refused_file unopened.why ≡ true) ⊎ (unopened.why ≡ Memory)) }
        ensures usable { IfErr result (λ unopened.
            D.Disk.is_usable unopened.disk ≡ not (is_failed_sync unopened.why)) }
        ensures still_usable { IfOk result (λ found. IsTrue (D.Disk.is_usable (found_on found))) }
        ensures clean { IfOk result (λ found. IsTrue (D.Disk.is_clean (found_on found))
            → IsTrue (D.Disk.is_clean disk)) }
    {
        match sync_and_read(alloc, &mut disk) {
            Ok(found) => Ok(FoundStore {
                text: found.lines.text,
                disk,
                end: found.lines.end,
                rest: found.rest,
            }),
            Err(why) => Err(UnopenedStore { why, disk }),
        }
    }

    /// Repairs the end of the file, or makes it whole. It may crash at any moment.
    pub fn open(self) -> Result<Store<D>, UnopenedStore<D>>
        ensures ready { IfOk result (λ store. is_broken store ≡ false) }
        ensures found { IfOk result (λ store. IsTrue (D.Disk.is_clean (disk_of store))
            → StandsFor (held_lines store) (D.Disk.seen (found_on self))) }
        ensures safe { IfOk result
            (λ store. IsTrue (D.Disk.is_clean (disk_of store)) → IsSafe store) }
        ensures tidy { IfOk result
            (λ store. IsTrue (D.Disk.is_clean (disk_of store)) → IsTidy store) }
        ensures crash { IfOk result
            (λ store. IsTrue (D.Disk.is_clean (disk_of store)) → (file : List ℕ)
            → D.Disk.may_leave (disk_of store) file
            → stands_for file ≡ stands_for (D.Disk.seen (found_on self))) }
        ensures crash_unopened { IfErr result
            (λ unopened. IsTrue (D.Disk.is_clean unopened.disk) → (file : List ℕ)
            → D.Disk.may_leave unopened.disk file
            → stands_for file ≡ stands_for (D.Disk.seen (found_on self))) }
        ensures known { IfOk result
            (λ store. IsTrue (D.Disk.is_clean (disk_of store)) → (known : Known)
            → IsKnown (D.Disk.may_leave (found_on self)) known
            → IsPossible known (held_lines store)) }
        ensures still_known { IfErr result
            (λ unopened. IsTrue (D.Disk.is_clean unopened.disk) → (known : Known)
            → IsKnown (D.Disk.may_leave (found_on self)) known
            → IsKnown (D.Disk.may_leave unopened.disk) known) }
        ensures no_fault { IfOk result
            (λ store. D.Disk.faults (disk_of store) ≡ D.Disk.faults (found_on self)) }
        ensures failure { IfErr result (λ unopened. is_failure unopened.why ≡ true
            → MoreFaults (D.Disk.faults (found_on self)) (D.Disk.faults unopened.disk)) }
        ensures failed { IfErr result (λ unopened. (is_failed_write unopened.why ≡ true)
            ⊎ ((unopened.why ≡ Memory) × (unopened.disk ≡ found_on self))) }
        ensures usable { IfErr result (λ unopened.
            D.Disk.is_usable unopened.disk ≡ not (is_failed_sync unopened.why)) }
        ensures clean { IfOk result (λ store. D.Disk.is_clean (disk_of store)
            ≡ D.Disk.is_clean (found_on self)) }
        ensures clean_unopened { IfErr result (λ unopened. D.Disk.is_clean unopened.disk
            ≡ D.Disk.is_clean (found_on self)) }
    {
        let mut disk = self.disk;
        match repair(&mut disk, self.end, self.rest) {
            Ok(end) => Ok(Store {
                disk,
                end,
                is_broken: false,
            }),
            Err(why) => Err(UnopenedStore { why, disk }),
        }
    }

    /// Gives the disk back, as it was found.
    pub fn into_disk(self) -> D
        ensures { result ≡ found_on self }
    {
        self.disk
    }
}

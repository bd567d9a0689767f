//! Opens a desk.
ghost use Rattle.std.specs.Prelude.{◌≡◌, false, not, IsTrue, IfOk, IfErr};
ghost use Rattle.dam_store.specs.Store.{disk_of, is_broken};
ghost use Rattle.dam_desk.specs.Desk.{IsOpened, IsUnopened};
ghost use Rattle.dam_desk.specs.Faults.{is_failed_sync};

use crate::desk::Desk;
use crate::fault::DeskFault;
use crate::intake::Intake;
use crate::replay::replay_stored_text;
use dam_book::Seed;
use dam_store::{FoundStore, UnopenedStore};
use sqlite_disk::Disk;
use std::alloc::Global;

/// A desk, and the replies to the journal that it was opened with.
#[derive(Drop)]
pub(crate) struct OpenedDesk<D: Disk> {
    pub(crate) desk: Desk<D>,
    pub(crate) replies: Vec<u8>,
}

/// A disk on which no desk was opened, and why.
#[derive(Drop)]
pub(crate) struct UnopenedDesk<D: Disk> {
    pub(crate) why: DeskFault,
    pub(crate) disk: D,
}

impl<D: Disk> From<UnopenedStore<D>> for UnopenedDesk<D> {
    ghost use Rattle.std.specs.Prelude.{◌≡◌};
    ghost use Rattle.dam_desk.specs.Faults.{of_store};

    ghost from_gives = { λ unopened gives. (gives.why ≡ of_store unopened.why)
        × (gives.disk ≡ unopened.disk) };

    fn from(unopened: UnopenedStore<D>) -> UnopenedDesk<D> {
        UnopenedDesk {
            why: DeskFault::from(unopened.why),
            disk: unopened.disk,
        }
    }
}

/// The desk of the journal on a disk, and the replies to it. The file's lines are read before its end is repaired, so that
/// a file with other lines stays as it is.
pub(crate) fn open_desk<D: Disk + Drop>(
    alloc: Global,
    seed: Seed,
    disk: D,
) -> Result<OpenedDesk<D>, UnopenedDesk<D>>
    requires usable { IsTrue (D.Disk.is_usable disk) }
    ensures ready { IfOk result (λ opened. is_broken opened.desk.store ≡ false) }
    ensures desk { IfOk result (λ opened. IsOpened opened.desk disk opened.replies.items) }
    ensures no_fault { IfOk result (λ opened.
        D.Disk.faults (disk_of opened.desk.store) ≡ D.Disk.faults disk) }
    ensures refused { IfErr result
        (λ refused. IsUnopened D.Disk disk refused.disk refused.why) }
    ensures usable { IfErr result (λ refused.
        D.Disk.is_usable refused.disk ≡ not (is_failed_sync refused.why)) }
{
    let found = FoundStore::find(alloc, disk)?;
    let replay = match replay_stored_text(alloc, seed, found.text.as_slice()) {
        Ok(replay) => replay,
        Err(why) => {
            let disk = found.into_disk();
            return Err(UnopenedDesk { why, disk });
        }
    };
    let store = found.open()?;
    let intake = Intake::new(alloc, seed, replay.day);
    Ok(OpenedDesk {
        desk: Desk { store, intake },
        replies: replay.replies,
    })
}

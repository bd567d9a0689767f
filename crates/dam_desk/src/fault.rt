//! A fault of a line is its answer. A fault of the desk ends the program.
ghost use Rattle.std.specs.Prelude.{◌≡◌};
ghost use Rattle.dam_desk.specs.Faults.{fault_after, fault_status};

use dam_results::JournalFault;
use dam_store::{FileFault, StoreFault};
use std::alloc::AllocError;
use thiserror::Error;

/// Why a line enters nothing.
#[derive(Clone, Copy, PartialEq, Eq, Debug)]
pub(crate) enum InputLineFault {
    /// It has more than `MOST_LINE` bytes.
    TooLong,
    /// The byte at this place, counted from 0, is the first over 127.
    NotAscii(usize),
    /// It has no record, or more than one.
    NotOneRecord,
    /// The journal has no day yet, and it is no day.
    NotDay,
    /// It doesn't have nine fields.
    FieldCount,
    /// The field of this number, counted from 1, is the first that breaks its rule.
    BadField(usize),
    /// It is a day of another length than the journal's.
    OtherDay,
    /// The journal has as many entries as it may; the last one is only for a close.
    JournalFull,
    /// The input ended in it.
    CutShort,
}

/// Why a desk ends with a fault.
#[derive(Debug, Drop, Error)]
pub(crate) enum DeskFault {
    /// The file isn't opened or read.
    #[error("file: {0}")]
    File(FileFault),
    /// Standard output goes to it.
    #[error("file: standard output goes to it")]
    OwnOutput,
    /// It holds no store, or the store failed.
    #[error("file: {0}")]
    Store(StoreFault),
    /// The lines that it holds aren't a journal.
    #[error("file: its lines aren't a journal: {0}")]
    NotAJournal(JournalFault),
    /// The lines that it holds are a journal in another spelling than a desk's.
    #[error("file: its lines aren't as a desk writes them")]
    Respelled,
    /// Standard input can't be read.
    #[error("device: read")]
    Read,
    /// Standard output failed after it had taken this many bytes of the run's text.
    #[error("device: write after {written} bytes")]
    Write { written: usize },
    /// Memory ran out. Each call that needs some may fail so, since no clause says how much there is.
    #[error("memory")]
    Memory,
}

impl DeskFault {
    /// The same fault, with `before` more bytes written: those before the text that failed.
    pub(crate) fn with_bytes_before(self, before: usize) -> DeskFault
        ensures { result ≡ fault_after before self }
    {
        match self {
            DeskFault::Write { written } => DeskFault::Write {
                written: before.saturating_add(written),
            },
            fault => fault,
        }
    }

    /// The status that the program ends with: 1 if the file is at fault, 4 if the machine is.
    pub(crate) fn status(&self) -> u8
        ensures { result ≡ fault_status self.now }
    {
        match self {
            DeskFault::File(FileFault::NotAFile | FileFault::Database)
            | DeskFault::OwnOutput
            | DeskFault::NotAJournal(_)
            | DeskFault::Respelled
            | DeskFault::Store(StoreFault::NotAStore | StoreFault::TooLong | StoreFault::Full) => 1,
            DeskFault::File(
                FileFault::InUse
                | FileFault::NoRandomBytes(_)
                | FileFault::Io(_)
                | FileFault::Memory,
            )
            | DeskFault::Store(
                StoreFault::Memory
                | StoreFault::Read(_)
                | StoreFault::Write(_)
                | StoreFault::Sync(_)
                | StoreFault::Broken,
            )
            | DeskFault::Read
            | DeskFault::Write { .. }
            | DeskFault::Memory => 4,
        }
    }
}

impl From<AllocError> for DeskFault {
    ghost use Rattle.std.specs.Prelude.{◌≡◌};
    ghost use Rattle.dam_desk.specs.declared.fault.DeskFault.TheVariants.{Memory};

    ghost from_gives = { λ _ fault. fault ≡ Memory };

    fn from(_error: AllocError) -> DeskFault {
        DeskFault::Memory
    }
}

impl From<FileFault> for DeskFault {
    ghost use Rattle.std.specs.Prelude.{◌≡◌};
    ghost use Rattle.dam_desk.specs.Faults.{of_file};

    ghost from_gives = { λ fault gives. gives ≡ of_file fault };

    fn from(fault: FileFault) -> DeskFault {
        match fault {
            FileFault::Memory => DeskFault::Memory,
            _ => DeskFault::File(fault),
        }
    }
}

impl From<StoreFault> for DeskFault {
    ghost use Rattle.std.specs.Prelude.{◌≡◌};
    ghost use Rattle.dam_desk.specs.Faults.{of_store};

    ghost from_gives = { λ fault gives. gives ≡ of_store fault };

    fn from(fault: StoreFault) -> DeskFault {
        match fault {
            StoreFault::Memory => DeskFault::Memory,
            _ => DeskFault::Store(fault),
        }
    }
}

impl From<JournalFault> for DeskFault {
    ghost use Rattle.std.specs.Prelude.{◌≡◌};
    ghost use Rattle.dam_desk.specs.Faults.{of_journal};

    ghost from_gives = { λ fault gives. gives ≡ of_journal fault };

    fn from(fault: JournalFault) -> DeskFault {
        match fault {
            JournalFault::Memory => DeskFault::Memory,
            _ => DeskFault::NotAJournal(fault),
        }
    }
}

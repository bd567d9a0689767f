//! The faults of a run, each with the status that the program ends with.

ghost use Rattle.std.specs.Prelude.{◌≡◌};
ghost use Rattle.dam_engines.specs.Fault.{fault_status};

use dam_blocks::ProblemFault;
use dam_gate::Mismatch;
use dam_results::JournalFault;
use dam_search::{NodeCount, SearchFault};
use std::alloc::AllocError;
use std::error::Error;

/// Why a run didn't print its text.
#[derive(Clone, Copy, PartialEq, Eq, Debug)]
pub enum RunFault {
    /// The reader failed.
    Read,
    /// The text isn't a journal. If memory ran out, the fault is `Memory` of this type.
    Input(JournalFault),
    /// The journal has more commands than a day's participants may give.
    TooManyCommands,
    /// The record of this number, the first such, is a close, which no participant may give.
    CloseGiven(usize),
    /// The record of this number brings one participant too many.
    TooManyParticipants(usize),
    /// The journal's commands leave the book open, so there is nothing to clear.
    StillOpen,
    /// The journal of a day's gate and the receipts of its participants don't fit together. By contract, no run
    /// ends so. If memory ran out, the fault is `Memory` of this type.
    Mismatch(Mismatch),
    /// The search visited as many nodes of this piece as the plan allows, and needed another. Each lesser piece is
    /// finished.
    Unfinished { piece: u32, visited: NodeCount },
    /// The answers of the search's workers lack this piece or repeat it. The search never answers so, and
    /// so no run does. Its line has the word `Collected`.
    AnswerMissingOrRepeated { piece: u32 },
    /// Memory ran out.
    Memory,
    /// The writer failed after it had taken this many bytes of the text: all of them, if it failed to flush them.
    Write { written: usize },
}

impl Error for RunFault {}

impl From<JournalFault> for RunFault {
    ghost use Rattle.std.specs.Prelude.{◌≡◌};
    ghost use Rattle.dam_engines.specs.Fault.{run_fault_of};

    ghost from_gives = { λ fault e. e ≡ run_fault_of fault };

    fn from(fault: JournalFault) -> RunFault {
        match fault {
            JournalFault::Memory => RunFault::Memory,
            _ => RunFault::Input(fault),
        }
    }
}

impl From<ProblemFault> for RunFault {
    ghost use Rattle.std.specs.Prelude.{◌≡◌};
    ghost use Rattle.dam_engines.specs.Fault.{problem_fault_of};

    ghost from_gives = { λ fault e. e ≡ problem_fault_of fault };

    fn from(fault: ProblemFault) -> RunFault {
        match fault {
            ProblemFault::StillOpen => RunFault::StillOpen,
            ProblemFault::Memory => RunFault::Memory,
        }
    }
}

impl From<SearchFault> for RunFault {
    ghost use Rattle.std.specs.Prelude.{◌≡◌};
    ghost use Rattle.dam_engines.specs.Fault.{search_fault_of};

    ghost from_gives = { λ fault e. e ≡ search_fault_of fault };

    fn from(fault: SearchFault) -> RunFault {
        match fault {
            SearchFault::Memory => RunFault::Memory,
            SearchFault::AnswerMissingOrRepeated { piece } => RunFault::AnswerMissingOrRepeated {
                piece,
            },
            SearchFault::Unfinished { piece, visited } => RunFault::Unfinished { piece, visited },
        }
    }
}

impl From<AllocError> for RunFault {
    ghost use Rattle.std.specs.Prelude.{◌≡◌};
    ghost use Rattle.dam_engines.specs.declared.fault.RunFault.TheVariants.{Memory};

    ghost from_gives = { λ _ e. e ≡ Memory };

    fn from(_error: AllocError) -> RunFault {
        RunFault::Memory
    }
}

/// The status that the program ends with: 1 for a fault of the input, 3 for a search that didn't finish, 4
/// for a fault of the machine, 5 for parts of a run that don't fit together.
pub fn status(fault: &RunFault) -> u8
    ensures { result ≡ fault_status fault.now }
{
    match fault {
        RunFault::Input(JournalFault::Memory) | RunFault::Mismatch(Mismatch::Memory) => 4,
        RunFault::Input(_)
        | RunFault::TooManyCommands
        | RunFault::CloseGiven(_)
        | RunFault::TooManyParticipants(_)
        | RunFault::StillOpen => 1,
        RunFault::Unfinished { .. } => 3,
        RunFault::Read | RunFault::Memory | RunFault::Write { .. } => 4,
        RunFault::Mismatch(_) | RunFault::AnswerMissingOrRepeated { .. } => 5,
    }
}

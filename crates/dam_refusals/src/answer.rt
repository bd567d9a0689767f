//! The printed answer of a sequence of calls.

use dam_blocks::ProblemFault;
use dam_engines::RunFault;
use dam_gate::{BeginFault, KeeperFault};
use dam_line::Job;
use dam_plan::Plan;
use dam_results::JournalFault;
use std::alloc::{AllocError, AllocFailed};
use std::fmt;

/// The greatest number of tries of a call.
pub const TRIES: u32 = 10;

/// Why a sequence of calls stopped before its end.
#[derive(Clone, Copy, PartialEq, Eq)]
pub enum Stop {
    /// Memory was refused before the first call of the sequence.
    Memory,
    /// A call gave a wrong answer, or a refused call changed something.
    Wrong,
}

impl From<AllocError> for Stop {
    fn from(_error: AllocError) -> Stop {
        Stop::Memory
    }
}

impl<T: Drop> From<AllocFailed<T>> for Stop {
    fn from(_error: AllocFailed<T>) -> Stop {
        Stop::Memory
    }
}

impl From<BeginFault> for Stop {
    fn from(fault: BeginFault) -> Stop {
        match fault {
            BeginFault::Memory => Stop::Memory,
            BeginFault::BadDay => Stop::Wrong,
        }
    }
}

impl From<KeeperFault> for Stop {
    fn from(fault: KeeperFault) -> Stop {
        match fault {
            KeeperFault::Memory => Stop::Memory,
            KeeperFault::JournalFull { .. } => Stop::Wrong,
        }
    }
}

impl From<JournalFault> for Stop {
    fn from(fault: JournalFault) -> Stop {
        match fault {
            JournalFault::Memory => Stop::Memory,
            _ => Stop::Wrong,
        }
    }
}

impl From<ProblemFault> for Stop {
    fn from(fault: ProblemFault) -> Stop {
        match fault {
            ProblemFault::Memory => Stop::Memory,
            ProblemFault::StillOpen => Stop::Wrong,
        }
    }
}

impl fmt::Display for Stop {
    ghost use Rattle.std.specs.Prelude.{Some};
    ghost use Rattle.dam_refusals.specs.Printed.{stop_text};

    ghost output = { λ stop. Some (stop_text stop) };

    fn fmt<W: fmt::Write>(&self, f: &mut fmt::Formatter<W>) -> fmt::Result {
        f.write_str(match self {
            Stop::Memory => "memory",
            Stop::Wrong => "wrong",
        })
    }
}

/// The answer of a sequence's last call.
#[derive(Clone, Copy, PartialEq, Eq)]
pub enum Answer {
    /// A journal of this number of entries.
    Entries(usize),
    /// This number of commands.
    Commands(usize),
    /// A selection of this welfare.
    Welfare(u64),
    /// A fault, which is printed as the program prints it.
    Fault(RunFault),
    /// Words that ask for a run without a plan.
    Replay,
    /// Words that ask for a run under this plan.
    Planned(Plan),
    /// Words that ask for help, or are refused.
    Text { help: bool },
}

impl Answer {
    /// The answer for the job of a command line.
    pub fn of_job(job: Job) -> Answer {
        match job {
            Job::Replay => Answer::Replay,
            Job::Clear(plan) | Job::Day(plan) => Answer::Planned(plan),
        }
    }
}

impl fmt::Display for Answer {
    ghost use Rattle.std.specs.Prelude.{Some};
    ghost use Rattle.dam_refusals.specs.Printed.{answer_text};

    ghost output = { λ answer. Some (answer_text answer) };

    fn fmt<W: fmt::Write>(&self, f: &mut fmt::Formatter<W>) -> fmt::Result {
        match self {
            Answer::Entries(count) => write!(f, "{count} entries"),
            Answer::Commands(count) => write!(f, "{count} commands"),
            Answer::Welfare(welfare) => write!(f, "welfare {welfare}"),
            Answer::Fault(fault) => write!(f, "{fault}"),
            Answer::Replay => f.write_str("replay"),
            Answer::Planned(plan) => write!(
                f,
                "workers {} cut {} nodes {}",
                plan.workers(),
                plan.cut(),
                plan.node_limit()
            ),
            Answer::Text { help: true } => f.write_str("help"),
            Answer::Text { help: false } => f.write_str("refused"),
        }
    }
}

/// The result of a sequence of calls.
#[derive(Clone, Copy, PartialEq, Eq)]
pub struct Told {
    pub answer: Answer,
    /// The number of calls that were refused memory.
    pub refused: u32,
}

impl fmt::Display for Told {
    ghost use Rattle.std.specs.Prelude.{Some};
    ghost use Rattle.dam_refusals.specs.Printed.{told_text};

    ghost output = { λ told. Some (told_text told) };

    fn fmt<W: fmt::Write>(&self, f: &mut fmt::Formatter<W>) -> fmt::Result {
        write!(f, "{}, {} calls refused", self.answer, self.refused)
    }
}

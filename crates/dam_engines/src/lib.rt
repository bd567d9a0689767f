//! The engines of the auction, bytes to bytes: each reads a journal from a reader, makes a whole text of it, and writes
//! that text to a writer.
//!
//! [`run_replay`] prints the reply of the order book to each command, [`run_clear`] the results of the closed book, and
//! [`run_day`] the journal of a day whose participants enter their commands at the same time, and its results. If a run
//! prints nothing or only the first bytes of its text, its [`RunFault`] says why; [`fault_line`] is the line that a
//! person reads, [`fixed_fault_line`] the same without an allocation, and [`status`] the number that a program ends with.
//!
//! ```
//! let plan = Plan::new(2, 3, MOST_NODES)?; // workers, depth of the cutting, nodes of a piece
//! let (mut reader, mut writer) = (Source::new(rt.stdin()), Sink::new(rt.stdout()));
//! match run_clear(rt, alloc, Seed::fixed(), &mut reader, &mut writer, plan, &FreeTurn) {
//!     Ok(()) => 0,
//!     Err(fault) => status(&fault),
//! }
//! ```
//!
//! A contract sees a reader as the bytes that it has left, and a writer as those that it took, if they show them:
//! standard input and output don't. How a run ends ([`run_clear`], clause `ends`), which text is printed for which
//! bytes, and the text of each fault, stand in `specs/`. If the bytes are a journal, the printed text is for that
//! journal and no other ([`laws::clearing_is_exact`] and the like), and a closed book has one results text at most
//! ([`laws::cleared_text_is_one`]).
//!
//! A reader comes as a [`Source`] and a writer as a [`Sink`], which keep whether they failed, how often they were
//! asked, and how often the writer was flushed. So the contracts say, of any reader and writer, that an engine reports
//! each failure of a device and no other, never asks a failed device again, flushes its text once, after its last byte,
//! and asks no more often than there are bytes to read, with one read for the end, and bytes to write.
//! Only tested is that the counts are of calls that are made, and that a [`Watch`] is called.
#![tactic(auto)]

mod alone;
mod clear;
mod day;
mod fault;
mod fixed_line;
mod input;
pub mod laws;
mod output;
mod replay;
mod watch;

pub use alone::clear_journal_alone;
pub use clear::run_clear;
pub use dam_device::{Sink, Source};
pub use day::{DayPlan, run_day};
pub use fault::{RunFault, status};
pub use fixed_line::{fault_line, fixed_fault_line};
pub use output::write_text;
pub use replay::{replies_of, run_replay};
pub use watch::Watch;

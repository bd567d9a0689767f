//! The gate of one delivery day: participants' threads enter commands at one lock, a journal keeps them, and a
//! settlement shows that each participant was answered with the journal's entries.
//!
//! ```
//! // in a function that is generic in the gate's name `J`, with `opening: Opening` among its arguments
//! let gate = Gate::<J, &R>::begin(rt, alloc, opening)?;
//! let mut pass = gate.issue_pass(rt, who)?; // one a participant; each may go to a thread of its own
//! let entry = gate.call(rt, &mut pass, submit)?;
//! let look = pass.look(who, name); // takes no lock, and waits for nobody
//! let mut operator = gate.issue_operator_pass(rt)?;
//! let _closed = gate.call(rt, &mut operator, Command::Close)?;
//!
//! let journal = gate.finish();
//! let accounts = [pass.into_account(), operator.into_account()];
//! match settle(alloc, journal, &accounts) {
//!     Ok(settled) => Ok(settled), // which accounts for the whole day: the clause `account`
//!     Err(unsettled) => Err(unsettled.why), // `unsettled.journal` is the journal, unchanged
//! }
//! ```
//!
//! Contracts see these types as plain data, whose words `specs/` defines:
//!
//! - a journal and a [`Settled`]: their entries with the book that these make
//! - a [`Keeper`]: its journal and the room in it
//! - a [`Pass`]: its account, the history that it has seen, the longest that it has learnt of, and that of its last call
//!
//! About the state under the lock, contracts state only facts of any gate that hold whenever the lock is free: the
//! journal is a legal one of the day of the gate's name, the passes' receipts together count its entries, and the slot
//! that is shown has the journal's version in it. So only tests show that a gate begins without an entry, that a call
//! journals at this gate just once, or not at all if it fails, and that `finish` returns the journal of these calls.
#![tactic(auto)]

mod account;
mod books;
mod command_places;
mod day;
mod entering;
mod gate;
mod givers;
mod history;
mod journal;
mod keeper;
pub mod laws;
mod limits;
mod locked;
mod opening;
mod pass;
mod settlement;
mod tally;
mod version;

pub use account::Account;
pub use dam_plan::{FreeTurn, Turnstile};
pub use day::{DayFault, SettledDay, run_commands, run_packed};
pub use gate::{Gate, GateFault, PassFault};
pub use journal::Journal;
pub use keeper::{BeginFault, Keeper, KeeperFault, PreparedStep};
pub use limits::{MOST_PARTICIPANTS, MOST_PASSES};
pub use opening::{GateName, Opening};
pub use pass::{Look, Note, Pass};
pub use settlement::{Mismatch, Settled, Unsettled, settle};
pub use version::{NextShown, Shown};

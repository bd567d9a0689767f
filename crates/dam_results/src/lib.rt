//! The texts that the auction reads and prints, and the published results of a selection of blocks.
//!
//! A journal's text is read into its commands (`read_journal`), its book and the number of commands that the book refused
//! (`run_of_text`), the replies to its commands (`replay_text`), or another value made of its commands one by one
//! (`read_into`). Each returns the first fault if the text isn't a journal. `results` finds the published results of an
//! eligible selection; `results_text`, `replies_text`, `journal_text` and `JournalWriter` write.
//!
//! ```
//! let run = run_of_text(alloc, Seed::fixed(), text)?;
//! let problem = Problem::of_book(alloc, &run.book)?;
//! let published = results(alloc, &problem, best_of_all(&problem))?;
//! let text = results_text(alloc, &published)?;
//! ```
//!
//! A contract sees a text as the list of its bytes, a book as its state, and results as their parts. Only tests show
//! the texts of the faults, and that memory isn't said to have run out if it hasn't.
//!
//! The crate doesn't know the search for the best selection, readers, writers or the command line.
#![tactic(auto)]

mod clearing;
mod command_fields;
mod csv_records;
mod from_journal;
mod journal_reading;
mod journal_writing;
pub mod laws;
mod limits;
mod lines;
pub mod market;
mod nine_fields;
mod published;
pub mod publishing_laws;
mod replay;
mod replies_writing;
mod results_making;
mod results_writing;
mod row_results;
mod run;
pub mod spelling_laws;

pub use from_journal::FromJournal;
pub use journal_reading::{JournalFault, JournalRead, read_into, read_journal};
pub use journal_writing::{JournalWriter, journal_text};
pub use limits::{MOST_BYTES, MOST_RECORDS};
pub use published::{PeriodResult, Results, RowResult};
pub use replay::replay_text;
pub use replies_writing::{append_reply_line, replies_text};
pub use results_making::results;
pub use results_writing::results_text;
pub use run::{Run, run_of_text};

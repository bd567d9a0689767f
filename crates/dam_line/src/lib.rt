//! The command line of `dam`: the job that the words after the program's name ask for.
//!
//! ```
//! match read_job(alloc, &words) {
//!     Ok(Job::Clear(plan)) => clear(plan),
//!     // the help that was asked for; or the error, or the help if there are no words
//!     Err(LineFault::Refused { help, text }) => ..,
//!     ..
//! }
//! ```
//!
//! `clap` reads the words. `specs/` defines the program's command, as `clap` sees it, and the job that
//! words ask for. A contract sees words as lists of bytes, and an option as its name, its range and its
//! default. Only tests show the texts of help and of refusals.
#![tactic(auto)]

mod command;
pub mod laws;
mod line;
mod options;

pub use line::{Job, LineFault, read_job};

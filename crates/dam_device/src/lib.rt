//! A reader and a writer of which contracts also say whether they failed, and how often they were called.
//!
//! A [`Source`] and a [`Sink`] keep whether they failed, how often they were asked, and how often the writer was
//! flushed, the last time after all that it took. So a contract can say, of any reader and writer, that each failure of
//! a device is reported and no other, that a failed device is never asked again, and that a text is flushed.
//! [`Sink::write_text`] writes a whole text. [`read_program_words`] reads the words of a command line.
//!
//! ```
//! let mut writer = Sink::new(rt.stdout());
//! match writer.write_text(b"done\n") {
//!     Ok(()) => 0,
//!     Err(WriteFailed { written }) => 4, // it took the first bytes alone
//! }
//! ```
//!
//! Only tested is that the counts are of calls that are made (three calls of two lines), and that a failure is recorded
//! only if there was one.
#![tactic(auto)]

mod counted;
mod device;
mod words;

pub use device::{CHUNK, DeviceFailed, Sink, Source, WriteFailed};
pub use words::{WordsFault, print_refusal, read_program_words};

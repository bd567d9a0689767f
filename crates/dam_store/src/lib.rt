//! A journal of lines on a disk, which no crash makes forget an acknowledged line.
//!
//! Nothing is assumed of a write that a crash cuts short: any bytes may stand in its range.
#![tactic(auto)]

mod batch;
mod disk;
mod fault;
mod file;
mod file_lines;
mod found_store;
pub mod laws;
mod limits;
mod marked_lines;
mod recovery;
mod store;

pub use batch::Batch;
pub use fault::{BatchFault, FileFault, StoreFault};
pub use file::open_file;
pub use file_lines::text_of_file_bytes;
pub use found_store::{FoundStore, UnopenedStore};
pub use limits::MOST_FILE_BYTES;
pub use store::Store;

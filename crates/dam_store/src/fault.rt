//! A fault names its cause: the file or the line that is refused, memory, or a call that failed.
ghost use Rattle.std.specs.Prelude.{◌≡◌};
ghost use Rattle.dam_store.specs.Faults.{is_not_a_file};

use crate::limits::MOST_FILE_BYTES;
use sqlite_std_file::OpenError;
use std::alloc::AllocError;
use std::io::{self, ErrorKind};
use thiserror::Error;

/// Why the disk of a file wasn't opened.
#[derive(Debug, Drop, Error)]
pub enum FileFault {
    /// Another process has the file.
    #[error("another process has it")]
    InUse,
    /// It, or the file `PATH-wal` next to it, isn't a regular file, or has a second name.
    #[error("it isn't a regular file with one name, or FILE-wal next to it isn't")]
    NotAFile,
    /// The files of a database have its name.
    #[error("a database's files have its name")]
    Database,
    /// The system gives no random bytes, which opening needs. The file wasn't touched.
    #[error("it can't be opened without random bytes: {0}")]
    NoRandomBytes(io::Error),
    /// The system refused a call for the file.
    #[error("{0}")]
    Io(io::Error),
    /// Memory ran out.
    #[error("out of memory")]
    Memory,
}

/// Why bytes weren't added to a batch.
#[derive(Clone, Copy, PartialEq, Eq, Debug, Error)]
pub enum BatchFault {
    /// They have a newline or a zero byte.
    #[error("a line has a newline or a zero byte")]
    NotALine,
    /// Memory ran out.
    #[error("out of memory")]
    Memory,
}

/// Why a store wasn't opened, or lines weren't appended.
#[derive(Debug, Drop, Error)]
pub enum StoreFault {
    /// The file holds bytes that no journal begins with. The text names the program that the format was made for.
    #[error("the file isn't a desk's journal")]
    NotAStore,
    /// The file is longer than a journal may be.
    #[error("the file has more than {MOST_FILE_BYTES} bytes")]
    TooLong,
    /// The journal has no room for the lines. Nothing was written, and fewer lines may still fit. Or the lines of a file that is
    /// read leave no room for the mark after them.
    #[error("the journal is full")]
    Full,
    /// Memory ran out.
    #[error("out of memory")]
    Memory,
    /// The file's length or its bytes couldn't be read.
    #[error("the file can't be read: {0}")]
    Read(io::Error),
    /// A write failed, and isn't retried. The lines may be in the file or not.
    #[error("the file can't be written: {0}")]
    Write(io::Error),
    /// A sync failed, and isn't retried. The lines may be in the file or not.
    #[error("the file can't be synced: {0}")]
    Sync(io::Error),
    /// An earlier write or sync failed.
    #[error("an earlier write or sync failed")]
    Broken,
}

impl From<AllocError> for StoreFault {
    ghost use Rattle.std.specs.Prelude.{◌≡◌};
    ghost use Rattle.dam_store.specs.declared.fault.StoreFault.TheVariants.{Memory};

    ghost from_gives = { λ _ fault. fault ≡ Memory };

    fn from(_error: AllocError) -> StoreFault {
        StoreFault::Memory
    }
}

impl From<io::Error> for FileFault {
    ghost use Rattle.std.specs.Prelude.{◌≡◌};
    ghost use Rattle.dam_store.specs.Faults.{of_io};

    ghost from_gives = { λ error fault. fault ≡ of_io error };

    fn from(error: io::Error) -> FileFault {
        match error.kind() {
            ErrorKind::OutOfMemory => FileFault::Memory,
            _ => FileFault::Io(error),
        }
    }
}

impl From<OpenError> for FileFault {
    ghost use Rattle.std.specs.Prelude.{◌≡◌};
    ghost use Rattle.dam_store.specs.Faults.{of_open};

    ghost from_gives = { λ error fault. fault ≡ of_open error };

    fn from(error: OpenError) -> FileFault {
        match error {
            OpenError::Busy => FileFault::InUse,
            OpenError::HotJournal => FileFault::Database,
            OpenError::OutOfMemory => FileFault::Memory,
            OpenError::Io(error) if is_not_a_file(&error) => FileFault::NotAFile,
            OpenError::Io(error) => FileFault::from(error),
        }
    }
}

/// Whether the library says that the path is no regular file with one name. An error of the system has a number.
fn is_not_a_file(error: &io::Error) -> bool
    ensures { result ≡ is_not_a_file error.now }
{
    error.raw_os_error().is_none() && error.kind() == ErrorKind::Unsupported
}

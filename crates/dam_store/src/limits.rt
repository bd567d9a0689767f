//! A file may have as many bytes, its marks among them, as a journal.

/// The most bytes of a file, with the marks of its lines.
pub const MOST_FILE_BYTES: usize = 16_777_216;

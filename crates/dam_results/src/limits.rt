//! The limits of a journal's text.

use dam_book::MOST_ENTRIES;

/// The greatest number of bytes in a journal's text.
pub const MOST_BYTES: usize = 16_777_216;

/// The greatest number of records in a journal's text: the day's, and one for each entry.
pub const MOST_RECORDS: usize = MOST_ENTRIES + 1;

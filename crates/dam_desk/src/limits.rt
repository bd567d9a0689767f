//! A longer line is answered as too long, and enters nothing.

/// The most bytes of a line that may be a record, without its line feed.
pub(crate) const MOST_LINE: usize = 65_536;

//! The limits of a gate, and of a day of given commands. How many entries a journal has is a limit of dam_book.

/// The greatest number of passes of one gate, the operator's among them.
pub const MOST_PASSES: u8 = 9;

/// The greatest number of participants in a day of given commands.
pub const MOST_PARTICIPANTS: usize = 8;

//! The result of a look-up: a welfare, and the clearing prices as one sum.

/// The welfare and the prices that a curve gives at a net volume.
#[derive(Clone, Copy, PartialEq, Eq, Debug)]
pub struct Point {
    /// The joint welfare of the periods, in cents per MWh times tenths of a MW.
    pub welfare: i64,
    /// The clearing prices of the periods, at which each of them balances, added up; in cents per MWh.
    pub price: i32,
}

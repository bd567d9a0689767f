//! The published results as data: the welfare, and then a result for each period and for each order.

use dam_book::{Name, Participant, Price};
use std::alloc::{Allocator, Global};

/// The published results of a period.
#[derive(Clone, Copy, PartialEq, Eq, Debug)]
pub struct PeriodResult {
    /// The clearing price, in cents per MWh.
    pub price: Price,
    /// The volume that the hourly orders and the accepted blocks buy, in tenths of a MW.
    pub volume: u64,
}

/// The result of an order of the book.
#[derive(PartialEq, Eq, Debug, Drop)]
pub enum RowResult {
    /// An hourly order, and its executed volume in tenths of a MW.
    Hour {
        who: Participant,
        name: Name,
        executed: u32,
    },
    /// A block, whether it is accepted, and its surplus at the prices, in cents per MWh times tenths of
    /// a MW. A rejected block may have any surplus, one above 0 too
    /// ("PRB reinsertion"), for example if its parent or its group keeps it out.
    Block {
        who: Participant,
        name: Name,
        accepted: bool,
        surplus: i64,
    },
}

/// The published results of a selection of blocks.
#[derive(Debug, Drop)]
pub struct Results<A: Allocator = Global> {
    /// The welfare, in cents per MWh times tenths of a MW.
    pub welfare: u64,
    /// One for each period of the day, from the first on.
    pub periods: Vec<PeriodResult, A>,
    /// One for each order of the book, in book order.
    pub rows: Vec<RowResult, A>,
}

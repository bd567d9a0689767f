//! One period of the auction: its clearing price and the execution of its hourly orders.
//!
//! An [`Hour`] holds the steps of a period in book order. At a net volume of accepted blocks it gives the price, the
//! totals and the welfare (`clear`), the executed volume of one step (`executed`) and the executed volumes of all steps
//! (`clear_and_execute`). `specs/` defines these words: executions and their balance, supporting prices, the best
//! execution.
//!
//! ```
//! let buy = Step { side: Side::Buy, price: Price::new(6000)?, qty: Qty::new(10)? };
//! let sell = Step { side: Side::Sell, price: Price::new(5000)?, qty: Qty::new(15)? };
//! let hour = Hour::build(alloc, &[buy, sell])?;
//! let cleared = hour.clear(0)?;
//! assert_eq!(cleared.price.get(), 5000);
//! assert_eq!(hour.executed(0, 1), Some(10));
//! ```
//!
//! A contract sees an hour as the list of its steps, in book order. Only tests show that a call reports out of memory
//! only if memory was refused.
//!
//! The crate doesn't know blocks, books or the other periods.
#![tactic(auto)]

mod edge;
mod execution;
mod hour;
mod ladder;
pub mod laws;
pub mod market_laws;
mod step;
mod volume_range;

pub use edge::price_between;
pub use hour::{Cleared, GREATEST_NET, Hour, MOST_STEPS};
pub use step::Step;

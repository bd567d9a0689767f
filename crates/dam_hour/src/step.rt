//! An hourly order as its side, limit and volume, and its execution at a price.

ghost use Rattle.std.specs.Prelude.{◌≡◌, ◌≤◌, pos, neg_ℤ, ◌*ℤ◌, ◌≤ℤ◌};
ghost use Rattle.dam_book.specs.Limits.{greatest_volume};
ghost use Rattle.dam_book.specs.Price.{IsPrice};
ghost use Rattle.dam_book.specs.Quantity.{IsQuantity};
ghost use Rattle.dam_hour.specs.Limits.{price_span, greatest_value};
ghost use Rattle.dam_hour.specs.inside.Volumes.{margin_at, if_at, share};

use dam_book::{Price, Qty, Side};

/// An hourly order of one period, as the clearing sees it (EUPHEMIA Public Description, "Aggregated
/// Hourly Orders": one step of a stepwise curve).
///
/// It buys or sells up to `qty` tenths of a MW, at its limit price in cents per MWh or better.
#[derive(Clone, Copy, PartialEq, Eq, Debug)]
pub struct Step {
    /// Whether it buys or sells.
    pub side: Side,
    /// The limit price, in cents per MWh.
    pub price: Price,
    /// The offered volume, in tenths of a MW.
    pub qty: Qty,
}

impl Step {
    /// The cents by which the limit is better than the price: 0 at the price, below 0 if it is worse.
    pub(crate) fn margin_at(self, price: Price) -> i32
        ensures value { result ≡ margin_at self price }
        ensures at_least { neg_ℤ (pos price_span) ≤ℤ result }
        ensures at_most { result ≤ℤ pos price_span }
    {
        match self.side {
            Side::Buy => self.price.get() - price.get(),
            Side::Sell => price.get() - self.price.get(),
        }
    }

    /// The step itself, for proofs: the contract states the ranges of its limit and volume, which the types keep.
    pub(crate) fn use_range(self) -> Step
        ensures same { result ≡ self }
        ensures limit { IsPrice result.price }
        ensures volume { IsQuantity result.qty }
    {
        let _limit = self.price.get(); // for the proof: the limit is in the range
        let _volume = self.qty.get(); // for the proof: the volume is in the range
        self
    }

    /// The step's volume in tenths of a MW.
    pub(crate) fn volume(self) -> u64
        ensures value { result ≡ self.qty }
        ensures small { result ≤ greatest_volume }
    {
        u64::from(self.qty.get())
    }

    /// The limit times the volume, in cents per MWh times tenths of a MW.
    pub(crate) fn limit_times_volume(self) -> i64
        ensures value { result ≡ self.price *ℤ pos self.qty }
        ensures at_least { neg_ℤ (pos greatest_value) ≤ℤ result }
        ensures at_most { result ≤ℤ pos greatest_value }
    {
        i64::from(self.price.get()) * i64::from(self.qty.get())
    }

    /// The step's volume in tenths of a MW if its limit is the price, and otherwise 0.
    pub(crate) fn marginal_volume(&self, price: Price) -> u64
        ensures { result ≡ if_at (margin_at self.now price) self.now.qty }
    {
        let volume = self.volume();
        let margin = self.margin_at(price);
        if margin == 0 { volume } else { 0 }
    }

    /// The executed volume at that price, in tenths of a MW: all of a better step, none of a worse one,
    /// and at the price as much as is left for it.
    pub(crate) fn executed_at(&self, price: Price, left: u64) -> u64
        ensures value { result ≡ share (margin_at self.now price) self.now.qty left }
        ensures small { result ≤ greatest_volume }
    {
        let volume = self.volume();
        let margin = self.margin_at(price);
        if margin > 0 {
            volume
        } else if margin == 0 {
            volume.min(left)
        } else {
            0
        }
    }
}

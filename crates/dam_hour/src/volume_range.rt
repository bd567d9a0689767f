//! The volumes that each side may execute at a price, and the surplus there, from the sums of the better steps.

ghost use Rattle.std.specs.Prelude.{◌≡◌, ◌+◌, ◌*◌, ◌≤◌, pos, neg_ℤ, ◌*ℤ◌, ◌≤ℤ◌};
ghost use Rattle.dam_book.specs.Limits.{greatest_volume};
ghost use Rattle.dam_hour.specs.Limits.{most_steps, price_span, greatest_price};
ghost use Rattle.dam_hour.specs.inside.Volumes.{better_volume, at_volume, full_surplus};

use crate::hour::Hour;
use dam_book::{Price, Side};
use std::alloc::Allocator;

/// The range of the volumes that one side may execute at a price, in tenths of a MW.
#[derive(Clone, Copy)]
pub(crate) struct VolumeRange {
    /// The volume that is better than the price, and so executed in full.
    pub(crate) least: u64,
    /// The volume that is not worse than the price.
    pub(crate) most: u64,
}

impl VolumeRange {
    pub(crate) fn of<A: Allocator>(hour: &Hour<A>, side: Side, price: Price) -> VolumeRange
        ensures least { result.least ≡ better_volume side price hour.now }
        ensures most { result.most
            ≡ better_volume side price hour.now + at_volume side price hour.now }
        ensures small { result.most ≤ most_steps * greatest_volume }
    {
        VolumeRange {
            least: hour.better_sums(side, price).volume,
            most: hour.volume_not_worse_than(side, price),
        }
    }
}

/// A price times a volume, in cents per MWh times tenths of a MW.
fn value_at(price: Price, volume: u64) -> i64
    requires { volume ≤ most_steps * greatest_volume }
    ensures value { result ≡ price *ℤ pos volume }
    ensures at_least { neg_ℤ (pos (greatest_price * (most_steps * greatest_volume)))
        ≤ℤ result }
    ensures at_most { result ≤ℤ pos (greatest_price * (most_steps * greatest_volume)) }
{
    i64::from(price.get()) * volume as i64
}

/// The surplus of the hour's steps at the price if the better ones are executed in full, in cents per MWh times
/// tenths of a MW.
pub(crate) fn full_surplus<A: Allocator>(hour: &Hour<A>, price: Price) -> u64
    ensures value { result ≡ full_surplus price hour.now }
    ensures small { result ≤ 2 * (most_steps * (price_span * greatest_volume)) }
{
    let buys = hour.better_sums(Side::Buy, price);
    let sells = hour.better_sums(Side::Sell, price);
    let buyers_gain = buys.value - value_at(price, buys.volume);
    let sellers_gain = value_at(price, sells.volume) - sells.value;
    buyers_gain as u64 + sellers_gain as u64
}

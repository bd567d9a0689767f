//! The last buy that is served, found by bisection, gives both ends of the supporting prices.

ghost use Rattle.std.specs.Prelude.{◌≡◌, ◌≤◌, ◌*◌, ◌↔◌, pos, ◌+ℤ◌, ◌-ℤ◌, IsTrue};
ghost use Rattle.std.specs.Int.{int_div_euclid, int_min, int_max};
ghost use Rattle.dam_book.specs.Limits.{greatest_volume};
ghost use Rattle.dam_hour.specs.Limits.{most_steps};
ghost use Rattle.dam_hour.specs.Execution.{IsHour, IsNetVolume, IsWithinOffers};
ghost use Rattle.dam_hour.specs.Price.{price_between};
ghost use Rattle.dam_hour.specs.inside.Volumes.{IsLeastHighEnough, IsGreatestLowEnough};
ghost use Rattle.dam_hour.specs.inside.Edge.{IsServed, IsEdge, IsLimitOfSell};

use crate::hour::Hour;
use dam_book::{HIGHEST_PRICE, LOWEST_PRICE, Price, Side};
use std::alloc::Allocator;

/// The end of the best execution among the buys, which are served from the greatest limit down.
#[derive(Clone, Copy)]
pub(crate) struct Edge {
    /// The limit of the last buy that is served, or the greatest price if none is.
    pub(crate) last: Price,
    /// The limit of the first buy that isn't served, or the least price if each is.
    pub(crate) next: Price,
    /// The volume of the buys that are served, of the last one too in full, in tenths of a MW.
    pub(crate) volume: u64,
}

/// Whether some execution balances: the net volume is at most all buys, and takes at most all sells.
pub(crate) fn is_within_offers<A: Allocator>(hour: &Hour<A>, net: i64) -> bool
    requires net { IsNetVolume net }
    ensures within { IsTrue result ↔ IsWithinOffers hour.now net }
    ensures steps { IsHour hour.now }
{
    let buys = hour.offered_volume(Side::Buy) as i64;
    let sells = hour.offered_volume(Side::Sell) as i64;
    -sells <= net && net <= buys
}

/// Whether a buy is served: the volume before it is less than the net volume and the sells that
/// aren't worse than its limit, together.
fn is_served<A: Allocator>(hour: &Hour<A>, net: i64, limit: Price, before: u64) -> bool
    requires net { IsNetVolume net }
    requires before { before ≤ most_steps * greatest_volume }
    ensures { IsTrue result ↔ IsServed hour.now net limit before }
{
    let sells = hour.volume_not_worse_than(Side::Sell, limit);
    (before as i64) < sells as i64 + net
}

impl Edge {
    /// The edge at a net volume, by bisection over the buys.
    pub(crate) fn of<A: Allocator>(hour: &Hour<A>, net: i64) -> Edge
        requires net { IsNetVolume net }
        ensures edge { IsEdge hour.now net result.last result.next result.volume }
        ensures small { result.volume ≤ most_steps * greatest_volume }
    {
        let buys = hour.ladder(Side::Buy);
        let mut last = Price::highest();
        let mut next = Price::lowest();
        let mut from = 0;
        let mut to = buys.len();
        while from < to {
            let middle = from + (to - from) / 2;
            let (limit, before) = buys.limit_and_volume_before(middle);
            if is_served(hour, net, limit, before) {
                last = limit;
                from = middle + 1;
            } else {
                next = limit;
                to = middle;
            }
        }
        Edge {
            last,
            next,
            volume: buys.sums_before(from).volume,
        }
    }

    /// The sells that are taken if the last buy is served in full, in tenths of a MW; below 0 if the net
    /// volume is more.
    fn sells_taken(&self, net: i64) -> i64
        requires net { IsNetVolume net }
        requires small { self.now.volume ≤ most_steps * greatest_volume }
        ensures { result ≡ pos self.now.volume -ℤ net }
    {
        self.volume as i64 - net
    }

    /// The least price that is high enough: it is the least supporting price.
    pub(crate) fn low<A: Allocator>(&self, hour: &Hour<A>, net: i64) -> Price
        requires steps { IsHour hour.now }
        requires net { IsNetVolume net }
        requires within { IsWithinOffers hour.now net }
        requires edge { IsEdge hour.now net self.now.last self.now.next self.now.volume }
        requires small { self.now.volume ≤ most_steps * greatest_volume }
        ensures { IsLeastHighEnough hour.now net result }
    {
        let sell = limit_of_sell(hour, self.sells_taken(net));
        lesser(self.last, greater(self.next, sell))
    }

    /// The greatest price that is low enough: it is the greatest supporting price.
    pub(crate) fn high<A: Allocator>(&self, hour: &Hour<A>, net: i64) -> Price
        requires steps { IsHour hour.now }
        requires net { IsNetVolume net }
        requires within { IsWithinOffers hour.now net }
        requires edge { IsEdge hour.now net self.now.last self.now.next self.now.volume }
        requires small { self.now.volume ≤ most_steps * greatest_volume }
        ensures { IsGreatestLowEnough hour.now net result }
    {
        lesser(self.last, limit_of_sell(hour, self.sells_taken(net) + 1))
    }
}

/// The limit of the sell that holds a unit, counted from 1 at the least limit; the least price of the
/// range for a unit under 1, and the greatest one if all sells are less.
fn limit_of_sell<A: Allocator>(hour: &Hour<A>, unit: i64) -> Price
    ensures { IsLimitOfSell hour.now unit result }
{
    let sells = hour.ladder(Side::Sell);
    if unit < 1 {
        return Price::lowest();
    }
    if unit as u64 > sells.total_sums().volume {
        return Price::highest();
    }
    let (limit, _) = sells.limit_and_volume_before(sells.place_holding(unit as u64));
    limit
}

fn lesser(one: Price, other: Price) -> Price
    ensures { result ≡ int_min one other }
{
    if one.get() <= other.get() { one } else { other }
}

fn greater(one: Price, other: Price) -> Price
    ensures { result ≡ int_max one other }
{
    if one.get() <= other.get() { other } else { one }
}

/// Half of the sum of two prices, rounded down, also below zero.
fn middle(low: Price, high: Price) -> Price
    ensures { result ≡ int_div_euclid (low +ℤ high) (pos 2) }
{
    Price::new((low.get() + high.get()).div_euclid(2)).unwrap()
}

/// The clearing price between the ends: if just one of them is an end of the range, the other one; else
/// the middle, a half cent rounded down, also below zero.
pub fn price_between(low: Price, high: Price) -> Price
    ensures { result ≡ price_between low high }
{
    let (low_cents, high_cents) = (low.get(), high.get());
    if low_cents == LOWEST_PRICE && high_cents < HIGHEST_PRICE {
        high
    } else if LOWEST_PRICE < low_cents && high_cents == HIGHEST_PRICE {
        low
    } else {
        middle(low, high)
    }
}

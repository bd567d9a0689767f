//! The steps of a period, sorted once, so that each net volume is cleared by bisection.

ghost use Rattle.std.specs.Prelude.{◌≡◌, ◌≤◌, ◌<◌, ◌-◌, ◌+◌, ◌*◌, ◌-ℤ◌, take, pos, ◌*ℤ◌, ◌+ℤ◌, ℕ, ℤ, List, length, slice_get, IfOk, IfSome, IfNone, MatchOption, IsTrue, ◌↔◌, [], None};
ghost use Rattle.std.specs.List.{remove};
ghost use Rattle.std.specs.Option.{option_map};
ghost use Rattle.dam_book.specs.declared.order.Side.TheVariants.{Buy, Sell};
ghost use Rattle.dam_book.specs.Limits.{greatest_volume};
ghost use Rattle.dam_hour.specs.Limits.{most_steps, price_span};
ghost use Rattle.dam_hour.specs.Execution.{IsHour, IsNetVolume, IsWithinOffers, IsUnbalanced, offered_volume};
ghost use Rattle.dam_hour.specs.Price.{AreEnds, price_between};
ghost use Rattle.dam_hour.specs.Best.{signed, IsBest, AreBestTotals, AreSmall, greatest_welfare};
ghost use Rattle.dam_hour.specs.Clearing.{IsClearedAt};
ghost use Rattle.dam_hour.specs.inside.Volumes.{better_volume, at_volume, full_surplus, total_on, AreTotals};
ghost use Rattle.dam_hour.specs.inside.Ladder.{AreOfSide, better_surplus};
ghost use Rattle.dam_hour.specs.inside.Edge.{IsEdge};

use crate::edge::{Edge, is_within_offers, price_between};
use crate::execution::{RemainingVolumes, volumes_in_turn};
use crate::ladder::{Ladder, Sums, sort_key_of};
use crate::step::Step;
use crate::volume_range::{VolumeRange, full_surplus};
use dam_book::{GREATEST_VOLUME, MOST_BLOCKS, MOST_HOURLY, Price, Side};
use std::alloc::{AllocError, Allocator, Global};
use std::marker::Model;

/// The most steps of one period: the hourly orders of a full book, and its blocks, which may stand as
/// steps too.
pub const MOST_STEPS: usize = MOST_HOURLY + MOST_BLOCKS;

/// The greatest net volume of a period, of either sign, in tenths of a MW: the greatest volume of all
/// blocks of a book.
pub const GREATEST_NET: i64 = MOST_BLOCKS as i64 * GREATEST_VOLUME as i64;

/// One period, an hour or a quarter of one: its steps in book order, at most `MOST_STEPS`.
///
/// It also keeps the buys by falling and the sells by rising limit, each with the volume and the value
/// of those before it, so that a price is found by bisection. A contract sees the list of the steps.
#[derive(Drop)]
pub struct Hour<A: Allocator = Global> {
    steps: Vec<Step, A>,
    buys: Ladder<A>,
    sells: Ladder<A>,
}

impl<A: Allocator> Model for Hour<A> {
    ghost use Rattle.std.specs.Prelude.{List};
    ghost use Rattle.dam_hour.specs.declared.step.Step.{Step};
    ghost use Rattle.dam_hour.specs.inside.Ladder.{AreLaddersOf};

    ghost Value = { List Step };

    ghost view = { λ h. h.steps.items };

    ghost invariant = { λ h. AreLaddersOf h.steps.items h.buys h.sells };
}

/// The clearing of a period; the volumes and the welfare count its steps alone.
///
/// The price is any that supports the execution, narrowed to one (EUPHEMIA Public Description,
/// "Price Determination Sub-problem"): if just one of the two ends is the end of the range of
/// prices, the other one; else the middle of the two, a half cent rounded down. That choice is this
/// project's own. Prices are in cents per MWh.
#[derive(Clone, Copy, PartialEq, Eq, Debug)]
pub struct Cleared {
    /// The least supporting price.
    pub low: Price,
    /// The greatest supporting price.
    pub high: Price,
    /// The price of the period, from `low` to `high`.
    pub price: Price,
    /// The executed volume of the buying steps, in tenths of a MW.
    pub bought: u64,
    /// The executed volume of the selling steps, in tenths of a MW.
    pub sold: u64,
    /// The welfare of the execution, in cents per MWh times tenths of a MW.
    pub welfare: i64,
}

/// The traded volumes of the best execution at a net volume, and the ends of the prices that support it.
#[derive(Clone, Copy)]
struct TradedVolumes {
    low: Price,
    high: Price,
    bought: u64,
    sold: u64,
}

impl TradedVolumes {
    /// The traded volumes at a net volume, and the ends. At the least supporting price, the scarcer side executes every
    /// order that is not worse.
    fn of<A: Allocator>(hour: &Hour<A>, net: i64, edge: &Edge) -> TradedVolumes
        requires steps { IsHour hour.now }
        requires net { IsNetVolume net }
        requires within { IsWithinOffers hour.now net }
        requires edge { IsEdge hour.now net edge.now.last edge.now.next edge.now.volume }
        requires small { edge.now.volume ≤ most_steps * greatest_volume }
        ensures ends { AreEnds hour.now net result.low result.high }
        ensures totals { AreTotals hour.now net result.low result.bought result.sold }
    {
        let low = edge.low(hour, net);
        let high = edge.high(hour, net);
        let buys = VolumeRange::of(hour, Side::Buy, low);
        let sells = VolumeRange::of(hour, Side::Sell, low);
        let supply = sells.most as i64 + net;
        let demand = buys.most as i64;
        if supply < demand {
            TradedVolumes {
                low,
                high,
                bought: supply as u64,
                sold: sells.most,
            }
        } else {
            TradedVolumes {
                low,
                high,
                bought: buys.most,
                sold: (demand - net) as u64,
            }
        }
    }

    /// The volume that each side has left at the least supporting price, once the better steps are executed in full.
    fn remaining<A: Allocator>(self, hour: &Hour<A>) -> RemainingVolumes
        ensures buys { result.buys ≡ self.bought - better_volume Buy self.low hour.now }
        ensures sells { result.sells ≡ self.sold - better_volume Sell self.low hour.now }
    {
        RemainingVolumes {
            buys: self
                .bought
                .saturating_sub(hour.better_sums(Side::Buy, self.low).volume),
            sells: self
                .sold
                .saturating_sub(hour.better_sums(Side::Sell, self.low).volume),
        }
    }

    /// The volume that the side trades.
    fn on(self, side: Side) -> u64
        ensures { result ≡ total_on side self.bought self.sold }
    {
        match side {
            Side::Buy => self.bought,
            Side::Sell => self.sold,
        }
    }
}

/// The welfare of an execution that balances and that the price supports: the surplus at the price,
/// and the price times the net volume.
fn welfare_at_price<A: Allocator>(hour: &Hour<A>, net: i64, price: Price) -> i64
    requires net { IsNetVolume net }
    ensures { result ≡ pos (full_surplus price hour.now) +ℤ price *ℤ net }
{
    full_surplus(hour, price) as i64 + i64::from(price.get()) * net
}

impl<A: Allocator + Copy> Hour<A> {
    /// The hour of these steps, which stand in book order. The error is out of memory.
    pub fn build(alloc: A, steps: &[Step]) -> Result<Hour<A>, AllocError>
        requires { length steps.now ≤ most_steps }
        ensures { IfOk result (λ hour. hour ≡ steps.now) }
    {
        let mut in_range_steps = Vec::with_capacity(alloc, steps.len())?;
        for step in steps {
            in_range_steps.push(step.use_range())?;
        }
        let buys = Ladder::of(alloc, in_range_steps.as_slice(), Side::Buy)?;
        let sells = Ladder::of(alloc, in_range_steps.as_slice(), Side::Sell)?;
        Ok(Hour {
            steps: in_range_steps,
            buys,
            sells,
        })
    }

    /// The hour without the step at a place, counted from 0 in book order. The error is out of memory.
    ///
    /// It is made from this one in one pass over its steps, with nothing to sort.
    pub fn without(&self, alloc: A, place: usize) -> Result<Hour<A>, AllocError>
        requires { place < length self.now }
        ensures { IfOk result (λ hour. hour ≡ remove self.now place) }
    {
        let steps = &self.steps;
        let mut kept = Vec::with_capacity(alloc, steps.len() - 1)?;
        kept.extend_from_slice(&steps[..place])?;
        kept.extend_from_slice(&steps[place + 1..])?;
        let buys = self.buys.without(alloc, place as u64)?;
        let sells = self.sells.without(alloc, place as u64)?;
        Ok(Hour {
            steps: kept,
            buys,
            sells,
        })
    }
}

impl<A: Allocator> Hour<A> {
    /// The steps of one side.
    pub(crate) fn ladder(&self, side: Side) -> &Ladder<A>
        ensures side { AreOfSide side result.now self.now }
        ensures steps { IsHour self.now }
    {
        match side {
            Side::Buy => &self.buys,
            Side::Sell => &self.sells,
        }
    }

    /// The volume of one side that stands before a limit at a place in book order, in tenths of a MW: all volume at
    /// better limits, and the volume at this limit that stands in front of the place.
    pub(crate) fn volume_before(&self, side: Side, limit: Price, place: usize) -> u64
        requires { place ≤ most_steps }
        ensures value { result
            ≡ better_volume side limit self.now + at_volume side limit (take place self.now) }
        ensures steps { IsHour self.now }
        ensures small { result ≤ most_steps * greatest_volume }
    {
        let ladder = self.ladder(side);
        let count = ladder.count_before(sort_key_of(side, limit, place));
        ladder.sums_before(count).volume
    }

    /// The whole volume of one side, in tenths of a MW.
    pub(crate) fn offered_volume(&self, side: Side) -> u64
        ensures value { result ≡ offered_volume side self.now }
        ensures steps { IsHour self.now }
        ensures small { result ≤ most_steps * greatest_volume }
    {
        self.ladder(side).total_sums().volume
    }

    /// The sums of the steps of one side that are better than a price.
    pub(crate) fn better_sums(&self, side: Side, price: Price) -> Sums
        ensures volume { result.volume ≡ better_volume side price self.now }
        ensures small { result.volume ≤ most_steps * greatest_volume }
        ensures gain { signed side (result.value -ℤ price *ℤ pos result.volume)
            ≡ pos (better_surplus side price self.now) }
        ensures gain_small { better_surplus side price self.now
            ≤ most_steps * (price_span * greatest_volume) }
    {
        let ladder = self.ladder(side);
        let count = ladder.count_before(sort_key_of(side, price, 0));
        ladder.sums_before(count)
    }

    /// The volume of one side that is not worse than a price, in tenths of a MW.
    pub(crate) fn volume_not_worse_than(&self, side: Side, price: Price) -> u64
        ensures value { result
            ≡ better_volume side price self.now + at_volume side price self.now }
        ensures small { result ≤ most_steps * greatest_volume }
    {
        self.volume_before(side, price, MOST_STEPS)
    }

    /// The number of steps.
    pub fn len(&self) -> usize
        ensures value { result ≡ length self.now }
        ensures steps { IsHour self.now }
    {
        self.steps.len()
    }

    /// Whether the hour has no step.
    pub fn is_empty(&self) -> bool
        ensures { IsTrue result ↔ (self.now ≡ []) }
    {
        self.steps.is_empty()
    }

    /// The steps in book order.
    pub fn steps(&self) -> &[Step]
        ensures value { result.now ≡ self.now }
        ensures steps { IsHour self.now }
    {
        self.steps.as_slice()
    }

    /// The traded volumes of the best execution at a net volume, and the prices between which it is supported; `None`
    /// exactly if no execution balances.
    fn traded_volumes(&self, net: i64) -> Option<TradedVolumes>
        requires { IsNetVolume net }
        ensures steps { IsHour self.now }
        ensures none { IfNone result (IsUnbalanced self.now net) }
        ensures ends { IfSome result (λ m. AreEnds self.now net m.low m.high) }
        ensures totals { IfSome result (λ m. AreTotals self.now net m.low m.bought m.sold) }
    {
        if !is_within_offers(self, net) {
            return None;
        }
        let edge = Edge::of(self, net);
        Some(TradedVolumes::of(self, net, &edge))
    }

    /// The price, the totals and the welfare that go with the traded volumes.
    fn cleared_from(&self, net: i64, traded: &TradedVolumes) -> Cleared
        requires net { IsNetVolume net }
        requires ends { AreEnds self.now net traded.now.low traded.now.high }
        requires totals { AreTotals self.now net traded.now.low
            traded.now.bought traded.now.sold }
        ensures { IsClearedAt self.now net result }
    {
        let _few = self.len(); // for the proof: the steps are few
        Cleared {
            low: traded.low,
            high: traded.high,
            price: price_between(traded.low, traded.high),
            bought: traded.bought,
            sold: traded.sold,
            welfare: welfare_at_price(self, net, traded.low),
        }
    }

    /// The executed volumes that go with the traded volumes.
    fn executed_volumes<B: Allocator>(
        &self,
        alloc: B,
        traded: &TradedVolumes,
    ) -> Result<Vec<u32, B>, AllocError>
        ensures { (net : ℤ)
            → AreTotals self.now net traded.now.low traded.now.bought traded.now.sold
            → IfOk result (λ volumes. IsBest self.now net volumes.items) }
    {
        volumes_in_turn(alloc, self.steps(), traded.low, traded.remaining(self))
    }

    /// The price, the totals and the welfare of the period at a net volume: the sold less the bought volume of the
    /// accepted blocks there, in tenths of a MW.
    ///
    /// `None` exactly if no execution balances. The execution is the one of greatest welfare
    /// (EUPHEMIA Public Description, "Welfare Maximization Problem (Master Problem)"), then of greatest
    /// bought volume ("Volume Indeterminacy Sub-problem"), then the one with the greater volume at the
    /// first step in book order at which two differ, which is this project's own. Takes no memory.
    pub fn clear(&self, net: i64) -> Option<Cleared>
        requires { IsNetVolume net }
        ensures none { IfNone result (IsUnbalanced self.now net) }
        ensures ends { IfSome result (λ c. AreEnds self.now net c.low c.high) }
        ensures price { IfSome result (λ c. c.price ≡ price_between c.low c.high) }
        ensures totals { IfSome result
            (λ c. AreBestTotals self.now net c.bought c.sold c.welfare) }
        ensures small { IfSome result (λ c. AreSmall (length self.now) c.bought c.sold c.welfare) }
        ensures welfare { greatest_welfare self.now net ≡ option_map (λ c. c.welfare) result }
    {
        match self.traded_volumes(net) {
            Some(traded) => Some(self.cleared_from(net, &traded)),
            None => None,
        }
    }

    /// The executed volume of the step at a place, counted from 0 in book order, in tenths of a MW:
    /// its volume in the best execution, as `clear` has it.
    ///
    /// `None` exactly if `clear` is `None` or no step stands there. Takes no memory.
    pub fn executed(&self, net: i64, place: usize) -> Option<u32>
        requires { IsNetVolume net }
        ensures best { (xs : List ℕ) → IsBest self.now net xs
            → result ≡ slice_get xs place }
        ensures none { IsUnbalanced self.now net → result ≡ None }
    {
        prove!(-GREATEST_NET <= net && net <= GREATEST_NET);
        let steps = self.steps();
        let step = *steps.get(place)?;
        let traded = self.traded_volumes(net)?;
        let before = self.volume_before(step.side, step.price, place);
        let left = traded.on(step.side).saturating_sub(before);
        Some(step.volume().min(left) as u32)
    }

    /// The answer of `clear`, and the executed volumes of all steps in book order, in tenths of a MW, as `executed` has
    /// them. One search finds the end of the best execution, and one pass over the steps finds the volumes.
    ///
    /// `None` exactly if `clear` is `None`. The error is out of memory.
    pub fn clear_and_execute<B: Allocator>(
        &self,
        alloc: B,
        net: i64,
    ) -> Result<Option<(Cleared, Vec<u32, B>)>, AllocError>
        requires { IsNetVolume net }
        ensures { IfOk result (λ found. MatchOption found (IsUnbalanced self.now net)
            (λ r. IsClearedAt self.now net r.0 × IsBest self.now net r.1.items)) }
    {
        let Some(traded) = self.traded_volumes(net) else {
            return Ok(None);
        };
        let volumes = self.executed_volumes(alloc, &traded)?;
        Ok(Some((self.cleared_from(net, &traded), volumes)))
    }
}

//! Curves are added one period at a time, by a merge of their segments.

ghost use Rattle.std.specs.Prelude.{◌≡◌, ◌⊎◌, ℕ, ◌+◌, ◌*◌, ◌<◌, ◌≤◌, ◌≤ℤ◌, ◌<ℤ◌, ℤ, pos, Option, List, [], ◌∷◌, length, slice_index_or, OnOk, OnErr};
ghost use Rattle.dam_book.specs.declared.order.Side.TheVariants.{Buy};
ghost use Rattle.dam_book.specs.Limits.{last_period, lowest_price, greatest_volume};
ghost use Rattle.dam_hour.specs.Execution.{IsNetVolume, offered_volume};
ghost use Rattle.dam_hour.specs.Limits.{most_steps, price_span};
ghost use Rattle.dam_hour.specs.declared.step.Step.{Step};
ghost use Rattle.dam_curve.specs.declared.segment.Segment.{Segment};
ghost use Rattle.dam_curve.specs.Supply.{IsSupplyOf};
ghost use Rattle.dam_curve.specs.Curve.{both, AreSegments, bottom_of, AreWithin, IsOutside, AreSmallSegments, IsSmallSegment, IsUnderEach, ArePriced, IsCurve};
ghost use Rattle.dam_curve.specs.inside.Supply.{worth_of};
ghost use Rattle.dam_curve.specs.inside.Segments.{segment_at_price, segments_from, joint_segment, IsPast};

use crate::height::cents_above_lowest;
use crate::segment::Segment;
use crate::supply::{Demand, Supply};
use dam_book::Price;
use dam_hour::{Step, laws, price_between};
use std::alloc::{AllocError, Allocator, Global};
use std::marker::Model;
use std::mem;

/// The curve of some periods, to which others are added one by one.
///
/// A contract sees its segments.
#[derive(Drop)]
pub struct CurveSum<A: Allocator = Global> {
    segments: Vec<Segment, A>,
    /// The segments of the period that is added.
    own: Vec<Segment, A>,
    /// The segments that take the place of the first.
    next: Vec<Segment, A>,
}

impl<A: Allocator> Model for CurveSum<A> {
    ghost use Rattle.std.specs.Prelude.{List};
    ghost use Rattle.dam_curve.specs.declared.segment.Segment.{Segment};

    ghost Value = { List Segment };

    ghost view = { λ s. s.segments.items };
}

impl<A: Allocator + Copy> CurveSum<A> {
    /// A sum without segments, which has to be restarted first.
    pub fn new(alloc: A) -> CurveSum<A>
        ensures { result ≡ [] }
    {
        CurveSum {
            segments: Vec::new(alloc),
            own: Vec::new(alloc),
            next: Vec::new(alloc),
        }
    }
}

impl<A: Allocator> CurveSum<A> {
    /// Begins again, with no period, over the net volumes from the least to the most, in tenths of a MW. The error
    /// is out of memory; the sum is then of use only for another `restart`.
    pub fn restart(&mut self, least: i64, most: i64) -> Result<(), AllocError>
        requires least { IsNetVolume least }
        requires most { IsNetVolume most }
        requires ordered { least ≤ℤ most }
        ensures { OnOk result (IsCurve [] least most self.new) }
    {
        self.segments.clear();
        self.segments.push(flat_segment(most as i32))?;
        self.segments.push(flat_segment(least as i32))?;
        Ok(())
    }

    /// Adds a period, at the same net volumes. On an error, which is out of memory, the sum is
    /// unchanged.
    pub fn add<B: Allocator>(&mut self, supply: &Supply<B>) -> Result<(), AllocError>
        requires { (periods : List (List Step)) × (least : ℤ) × (most : ℤ)
            × (steps : List Step)
            × IsCurve periods least most self.old × IsSupplyOf steps supply.now
            × (length periods < last_period) }
        ensures added { (periods : List (List Step)) (least most : ℤ) (steps : List Step)
            → IsCurve periods least most self.old → IsSupplyOf steps supply.now
            → length periods < last_period
            → OnOk result (IsCurve (steps ∷ periods) least most self.new) }
        ensures err { OnErr result (self.new ≡ self.old) }
    {
        laws::best_has_greatest_welfare();
        laws::supported_surplus_is_greatest();
        laws::balances_within_offers();
        laws::price_is_between_ends();
        fill_period_segments(&mut self.own, supply.steps())?;
        fill_joint_segments(&self.own, &self.segments, &mut self.next)?;
        mem::swap(&mut self.segments, &mut self.next);
        Ok(())
    }

    pub(crate) fn segments(&self) -> &[Segment]
        ensures { result.now ≡ self.now }
    {
        self.segments.as_slice()
    }
}

/// The segment of no period.
fn flat_segment(most: i32) -> Segment
    ensures { result ≡ record { most = most; price = pos 0; end_price = pos 0; surplus = pos 0 } }
{
    Segment {
        most,
        price: 0,
        end_price: 0,
        surplus: 0,
    }
}

/// The segment at a price, if the previous limit is `previous`, and the cheaper supply has the volume `before` at
/// this cost.
fn segment_at_price(
    demand: Demand,
    previous: Price,
    price: Price,
    before: u64,
    cost: u64,
) -> Segment
    requires volume { demand.volume ≤ most_steps * greatest_volume }
    requires worth { demand.worth ≤ most_steps * (price_span * greatest_volume) }
    requires before { before ≤ most_steps * greatest_volume }
    requires cost { cost ≤ most_steps * (price_span * greatest_volume) }
    ensures { result ≡ segment_at_price demand.volume demand.worth previous price before cost }
{
    let most = demand.volume as i64 - before as i64;
    Segment {
        most: most as i32,
        price: price.get(),
        end_price: price_between(previous, price).get(),
        surplus: demand.worth as i64 - cost as i64 - i64::from(cents_above_lowest(price)) * most,
    }
}

/// Replaces the segments by those of a period with these steps, which stand by rising limit.
fn fill_period_segments<A: Allocator>(
    segments: &mut Vec<Segment, A>,
    steps: &[Step],
) -> Result<(), AllocError>
    requires { length steps.now ≤ most_steps }
    ensures { OnOk result (segments.new.items
        ≡ segments_from (offered_volume Buy steps.now) (worth_of steps.now)
        lowest_price 0 0 steps.now) }
{
    let demand = Demand::of(steps);
    let mut previous = Price::lowest();
    let mut before = 0u64;
    let mut cost = 0u64;
    segments.clear();
    segments.reserve(steps.len() + 1)?;
    for step in steps {
        segments.push(segment_at_price(demand, previous, step.price, before, cost))?;
        previous = step.price;
        let volume = u64::from(step.qty.get());
        before += volume;
        cost += u64::from(cents_above_lowest(step.price)) * volume;
    }
    segments.push(segment_at_price(demand, previous, Price::highest(), before, cost))?;
    Ok(())
}

/// The sum of two segments, at the net volumes at which both hold, up to this one.
fn joint_segment(a: Segment, b: Segment, most: i32) -> Segment
    requires { (n : ℕ) × (m : ℕ) × IsSmallSegment n a × IsSmallSegment m b
        × (n + m ≤ last_period) }
    ensures { result ≡ joint_segment a b most }
{
    Segment {
        most,
        price: a.price + b.price,
        end_price: a.price_at(i64::from(most)) + b.price_at(i64::from(most)),
        surplus: a.surplus + b.surplus,
    }
}

/// The place of the last segment that holds at the net volume.
fn segment_place_at(segments: &[Segment], net: i32) -> usize
    requires some { 0 < length segments.now }
    requires first { (d : Segment) → net ≤ℤ (slice_index_or segments.now 0 d).most }
    ensures inside { result < length segments.now }
    ensures holds { (d : Segment) → net ≤ℤ (slice_index_or segments.now result d).most }
    ensures last { (d : Segment) → result + 1 < length segments.now
        → (slice_index_or segments.now (result + 1) d).most <ℤ net }
{
    let mut place = 0;
    while place + 1 < segments.len() && segments[place + 1].most >= net {
        place += 1;
    }
    place
}

/// The next place if the segment there holds up to this net volume, and otherwise the same place.
fn place_past(segments: &[Segment], place: usize, net: i32) -> usize
    requires { place + 1 < length segments.now }
    ensures { IsPast segments.now place net result }
{
    if segments[place + 1].most == net {
        place + 1
    } else {
        place
    }
}

/// Replaces the segments of `sum` by those of the sum of two curves.
fn fill_joint_segments<A: Allocator>(
    a: &[Segment],
    b: &[Segment],
    sum: &mut Vec<Segment, A>,
) -> Result<(), AllocError>
    requires { (n : ℕ) × (m : ℕ) × AreSmallSegments n a.now × AreSmallSegments m b.now
        × (n + m ≤ last_period) }
    ensures segments { (f g : ℤ → Option ℤ) → AreSegments f a.now (bottom_of a.now)
        → AreSegments g b.now (bottom_of b.now) → OnOk result
        (AreSegments (λ net. both (f net) (g net)) sum.new.items (bottom_of sum.new.items)) }
    ensures within { (g : ℤ → Option ℤ) (least most : ℤ)
        → AreSegments g b.now (bottom_of b.now)
        → AreWithin b.now least most → OnOk result (AreWithin sum.new.items least most) }
    ensures outside { (f g : ℤ → Option ℤ) (net : ℤ)
        → AreSegments f a.now (bottom_of a.now)
        → AreSegments g b.now (bottom_of b.now) → OnOk result
        (IsOutside sum.new.items net → IsOutside a.now net ⊎ IsOutside b.now net) }
    ensures small { (n m : ℕ) → AreSmallSegments n a.now → AreSmallSegments m b.now
        → OnOk result (AreSmallSegments (n + m) sum.new.items) }
    ensures under { (f g : ℤ → Option ℤ) → IsUnderEach f a.now → IsUnderEach g b.now
        → OnOk result (IsUnderEach (λ net. both (f net) (g net)) sum.new.items) }
    ensures priced { (f g : ℤ → Option ℤ) (steps : List Step) (periods : List (List Step))
        → AreSegments f a.now (bottom_of a.now) → AreSegments g b.now (bottom_of b.now)
        → ArePriced (steps ∷ []) a.now (bottom_of a.now)
        → ArePriced periods b.now (bottom_of b.now) → OnOk result
        (ArePriced (steps ∷ periods) sum.new.items (bottom_of sum.new.items)) }
{
    sum.clear();
    if a.is_empty() || b.is_empty() {
        return Ok(());
    }
    let mut net = a[0].most.min(b[0].most);
    if a[a.len() - 1].most > net || b[b.len() - 1].most > net {
        return Ok(());
    }
    let mut place_in_a = segment_place_at(a, net);
    let mut place_in_b = segment_place_at(b, net);
    while place_in_a + 1 < a.len() && place_in_b + 1 < b.len() {
        sum.push(joint_segment(a[place_in_a], b[place_in_b], net))?;
        net = a[place_in_a + 1].most.max(b[place_in_b + 1].most);
        place_in_a = place_past(a, place_in_a, net);
        place_in_b = place_past(b, place_in_b, net);
    }
    sum.push(joint_segment(a[place_in_a], b[place_in_b], net))?;
    Ok(())
}

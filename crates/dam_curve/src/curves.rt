//! All curves stand in one list of segments, and hints say near which segment a look-up begins.

ghost use Rattle.std.specs.Prelude.{◌≡◌, ◌+◌, ◌-◌, ◌*◌, ◌^◌, ◌≤◌, ◌<◌, ℤ, pos, neg_ℤ, ◌≤ℤ◌, ◌<ℤ◌, Some, List, [], length, IsOk, IfOk, OnErr, IfSome, option_map, slice_index_or};
ghost use Rattle.dam_book.specs.Limits.{last_period};
ghost use Rattle.dam_hour.specs.Limits.{greatest_price};
ghost use Rattle.dam_hour.specs.declared.step.Step.{Step};
ghost use Rattle.dam_curve.specs.declared.segment.Segment.{Segment};
ghost use Rattle.dam_curve.specs.Curve.{joint_welfare, end_of, bottom_of, IsCurve, segments_at, CurvesState, IsCurveAt, Keeps};
ghost use Rattle.dam_curve.specs.JointPrice.{IsJointPrice};
ghost use Rattle.dam_curve.specs.Line.{IsAbove, IsSmallLine};
ghost use Rattle.dam_curve.specs.Point.{IsSmallPoint};

use crate::line::Line;
use crate::point::Point;
use crate::segment::Segment;
use crate::sum::CurveSum;
use dam_hour::laws;
use std::alloc::{AllocError, Allocator, Global};
use std::marker::Model;

/// The greatest number of hints that a curve has for each of its segments, besides one for the whole curve.
const HINTS_PER_SEGMENT: usize = 8;

/// The hints of a curve. A wrong hint only costs time (`segment_place_near`).
#[derive(Clone, Copy)]
pub(crate) struct Hints {
    /// The place of the first.
    pub(crate) first: u32,
    /// The bits by which the distance of a net volume from the greatest is shifted to find one.
    pub(crate) shift: u32,
}

/// A curve among many: where its segments stand, and between which net volumes it has a welfare.
#[derive(Clone, Copy)]
pub struct Curve {
    pub(crate) first: u32,
    pub(crate) count: u32,
    /// The least net volume and the greatest, in tenths of a MW.
    pub(crate) least: i32,
    pub(crate) most: i32,
    pub(crate) hints: Hints,
}

/// The segments of many curves, one curve after another.
///
/// A contract sees the list of the segments. It asks of a curve which periods it is of.
#[derive(Drop)]
pub struct Curves<A: Allocator = Global> {
    pub(crate) segments: Vec<Segment, A>,
    /// Places of segments near which a net volume is. They need not be right: a look-up goes on from there.
    hints: Vec<u16, A>,
}

impl<A: Allocator> Model for Curves<A> {
    ghost use Rattle.dam_curve.specs.Curve.{CurvesState};

    ghost Value = { CurvesState };

    ghost view = { λ c. record { segments = c.segments.items } };
}

/// The number in 32 bits. If it doesn't fit, there are more segments or hints than can be kept, which is
/// reported as out of memory.
fn to_u32(number: usize) -> Result<u32, AllocError>
    ensures value { IfOk result (λ narrow. narrow ≡ number) }
    ensures fits { number < 2 ^ 32 → IsOk result }
{
    let Ok(narrow) = u32::try_from(number) else {
        return Err(AllocError);
    };
    Ok(narrow)
}

/// The bits by which net volumes are shifted to find a hint, so that a curve over this range of them has at most
/// `HINTS_PER_SEGMENT` hints for each of its segments, and one more.
fn shift_of(range: u32, segments: usize) -> u32
    ensures { result ≤ 31 }
{
    let enough = segments.saturating_mul(HINTS_PER_SEGMENT);
    let mut shift = 0;
    while shift < 31 && (range >> shift) as usize > enough {
        shift += 1;
    }
    shift
}

/// Appends the hints of a curve with these segments. The error is out of memory.
fn append_hints<A: Allocator>(
    hints: &mut Vec<u16, A>,
    segments: &[Segment],
) -> Result<Hints, AllocError>
    requires some { 0 < length segments.now }
{
    let first = to_u32(hints.len())?;
    let top = segments[0].most;
    let range = top.abs_diff(segments[segments.len() - 1].most);
    let shift = shift_of(range, segments.len());
    let mut place = 0usize;
    for hint in 0..=(range >> shift) {
        let under = i64::from(hint) << shift;
        while place + 1 < segments.len()
            && i64::from(top) - i64::from(segments[place + 1].most) <= under
        {
            place += 1;
        }
        hints.push(u16::try_from(place).unwrap_or(0))?;
    }
    Ok(Hints { first, shift })
}

/// The segments of one curve among many.
#[inline(always)]
pub(crate) fn segments_of(segments: &[Segment], curve: Curve) -> &[Segment]
    requires { curve.first + curve.count ≤ length segments.now }
    ensures { result.now ≡ segments_at segments.now curve }
{
    let first = curve.first as usize;
    &segments[first..first + curve.count as usize]
}

/// The joint welfare and the joint price at the net volume. The segment that holds there is looked for from a place near by.
#[inline(always)]
fn point_in(segments: &[Segment], net: i64, near: usize) -> Point
    requires curve { (periods : List (List Step)) × (least : ℤ) × (most : ℤ)
        × IsCurve periods least most segments.now }
    requires some { 0 < length segments.now }
    requires bottom { bottom_of segments.now ≤ℤ net }
    requires top { net ≤ℤ end_of segments.now (pos 0) }
    requires least { neg_ℤ (pos (2 ^ 31)) ≤ℤ net }
    requires most { net ≤ℤ pos (2 ^ 31) }
    ensures welfare { (periods : List (List Step)) (least most : ℤ)
        → IsCurve periods least most segments.now
        → Some result.welfare ≡ joint_welfare periods net }
    ensures price { (periods : List (List Step)) (least most : ℤ)
        → IsCurve periods least most segments.now → IsJointPrice periods net result.price }
    ensures at_least { neg_ℤ (pos (last_period * greatest_price)) ≤ℤ result.price }
    ensures at_most { result.price ≤ℤ pos (last_period * greatest_price) }
{
    let segment = segments[segment_place_near(segments, net, near)];
    Point {
        welfare: segment.line().value(net),
        price: segment.price_at(net),
    }
}

/// The place itself; of the last one the place before it, if there is one, since the last segment holds at one net volume
/// alone, and is steep.
#[inline(always)]
fn place_before_end(place: usize, count: usize) -> usize
    requires { place < count }
    ensures { result < count }
{
    if place + 1 == count {
        place.saturating_sub(1)
    } else {
        place
    }
}

/// The line of the last segment that holds at the net volume; of the one before it, if that is the last of the curve.
#[inline(always)]
fn line_in(segments: &[Segment], net: i64, near: usize) -> Line
    requires curve { (periods : List (List Step)) × (least : ℤ) × (most : ℤ)
        × IsCurve periods least most segments.now }
    requires some { 0 < length segments.now }
    requires bottom { bottom_of segments.now ≤ℤ net }
    requires top { net ≤ℤ end_of segments.now (pos 0) }
    ensures above { (periods : List (List Step)) (least most : ℤ)
        → IsCurve periods least most segments.now → IsAbove periods least most result }
    ensures small { IsSmallLine last_period result }
{
    let place = place_before_end(segment_place_near(segments, net, near), segments.len());
    segments[place].line()
}

impl<A: Allocator + Copy> Curves<A> {
    /// No curve yet.
    pub fn new(alloc: A) -> Curves<A>
        ensures { result ≡ record { segments = [] } }
    {
        Curves {
            segments: Vec::new(alloc),
            hints: Vec::new(alloc),
        }
    }
}

impl<A: Allocator> Curves<A> {
    /// Adds the curve of the sum. On an error, which is out of memory, the curve isn't added.
    pub fn add<B: Allocator>(&mut self, sum: &CurveSum<B>) -> Result<Curve, AllocError>
        ensures added { (periods : List (List Step)) (least most : ℤ)
            → IsCurve periods least most sum.now
            → IfOk result (λ curve. IsCurveAt self.new curve periods least most) }
        ensures kept { Keeps self.old self.new }
        ensures err { OnErr result (self.new ≡ self.old) }
    {
        let segments = sum.segments();
        if segments.is_empty() {
            return Ok(Curve::none());
        }
        let first = to_u32(self.segments.len())?;
        let count = to_u32(segments.len())?;
        let hints = append_hints(&mut self.hints, segments)?;
        self.segments.extend_from_slice(segments)?;
        Ok(Curve {
            first,
            count,
            least: segments[segments.len() - 1].most,
            most: segments[0].most,
            hints,
        })
    }

    /// A place near the segment for the net volume; it may be any.
    fn place_near(&self, curve: Curve, net: i64) -> usize
        requires least { curve.least ≤ℤ net }
        requires most { net ≤ℤ curve.most }
    {
        let under = (i64::from(curve.most) - net) as u64;
        let hint = (curve.hints.first as usize).saturating_add(
            (under >> (curve.hints.shift % 64)) as usize,
        );
        match self.hints.get(hint) {
            Some(place) => usize::from(*place),
            None => 0,
        }
    }

    /// The joint welfare of the curve's periods at the net volume, and their clearing prices there; `None` exactly if some of
    /// them doesn't balance. Takes no memory.
    #[inline(always)]
    pub fn point(&self, curve: Curve, net: i64) -> Option<Point>
        requires { (periods : List (List Step)) × (least : ℤ) × (most : ℤ)
            × IsCurveAt self.now curve periods least most
            × (least ≤ℤ net) × (net ≤ℤ most) }
        ensures welfare { (periods : List (List Step)) (least most : ℤ)
            → IsCurveAt self.now curve periods least most → least ≤ℤ net → net ≤ℤ most
            → option_map (λ point. point.welfare) result ≡ joint_welfare periods net }
        ensures price { (periods : List (List Step)) (least most : ℤ)
            → IsCurveAt self.now curve periods least most
            → IfSome result (λ point. IsJointPrice periods net point.price) }
        ensures small { IfSome result IsSmallPoint }
    {
        laws::best_has_greatest_welfare();
        laws::executions_are_small();
        if net < i64::from(curve.least) || net > i64::from(curve.most) {
            return None;
        }
        Some(self.point_within(curve, net))
    }

    /// The point of the segment for the net volume.
    #[inline(always)]
    pub(crate) fn point_within(&self, curve: Curve, net: i64) -> Point
        requires curve { (periods : List (List Step)) × (least : ℤ) × (most : ℤ)
            × IsCurveAt self.now curve periods least most }
        requires least { curve.least ≤ℤ net }
        requires most { net ≤ℤ curve.most }
        ensures welfare { (periods : List (List Step)) (least most : ℤ)
            → IsCurveAt self.now curve periods least most
            → Some result.welfare ≡ joint_welfare periods net }
        ensures price { (periods : List (List Step)) (least most : ℤ)
            → IsCurveAt self.now curve periods least most
            → IsJointPrice periods net result.price }
        ensures at_least { neg_ℤ (pos (last_period * greatest_price)) ≤ℤ result.price }
        ensures at_most { result.price ≤ℤ pos (last_period * greatest_price) }
    {
        let segments = segments_of(&self.segments, curve);
        point_in(segments, net, self.place_near(curve, net))
    }

    /// A line over the joint welfare of the curve's periods, which touches it at the net volume; if some period doesn't
    /// balance there, it touches it at the nearest net volume at which they do. At the least such net volume it is the line
    /// that holds above it too, since the one that holds there alone is steep. A curve without segments has the line with
    /// price 0 and surplus 0. Only tests show that the line touches. Takes no memory.
    #[inline(always)]
    pub fn line_near(&self, curve: Curve, net: i64) -> Line
        requires { (periods : List (List Step)) × (least : ℤ) × (most : ℤ)
            × IsCurveAt self.now curve periods least most }
        ensures above { (periods : List (List Step)) (least most : ℤ)
            → IsCurveAt self.now curve periods least most → IsAbove periods least most result }
        ensures small { IsSmallLine last_period result }
    {
        if curve.count == 0 {
            return Line {
                price: 0,
                surplus: 0,
            };
        }
        let segments = segments_of(&self.segments, curve);
        let net = net.max(i64::from(curve.least)).min(i64::from(curve.most));
        line_in(segments, net, self.place_near(curve, net))
    }
}

impl Curve {
    /// A curve without segments.
    fn none() -> Curve
        ensures { (curves : CurvesState) (periods : List (List Step)) (least most : ℤ)
            → IsCurve periods least most [] → IsCurveAt curves result periods least most }
    {
        Curve {
            first: 0,
            count: 0,
            least: 0,
            most: -1,
            hints: Hints { first: 0, shift: 0 },
        }
    }
}

/// The place of the last segment that holds at the net volume, looked for from a place near by, which may be any.
fn segment_place_near(segments: &[Segment], net: i64, near: usize) -> usize
    requires some { 0 < length segments.now }
    requires first { (d : Segment) → net ≤ℤ (slice_index_or segments.now 0 d).most }
    requires last { (d : Segment)
        → (slice_index_or segments.now (length segments.now - 1) d).most ≤ℤ net }
    ensures inside { result < length segments.now }
    ensures holds { (d : Segment) → net ≤ℤ (slice_index_or segments.now result d).most }
    ensures next { (d : Segment) → result + 1 < length segments.now
        → (slice_index_or segments.now (result + 1) d).most <ℤ net }
{
    let mut place = near.min(segments.len() - 1);
    while i64::from(segments[place].most) < net {
        place -= 1;
    }
    while place + 1 < segments.len() && i64::from(segments[place + 1].most) >= net {
        place += 1;
    }
    place
}

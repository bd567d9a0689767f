//! Prices fall as the net volume rises, so the two ends of a curve bound its prices.

ghost use Rattle.std.specs.Prelude.{ℤ, List};
ghost use Rattle.dam_book.specs.Limits.{last_period};
ghost use Rattle.dam_hour.specs.declared.step.Step.{Step};
ghost use Rattle.dam_curve.specs.Curve.{IsCurveAt};
ghost use Rattle.dam_curve.specs.PriceRange.{ArePricesIn, IsSmallRange};

use crate::curves::{Curve, Curves, segments_of};
use crate::laws;
use std::alloc::Allocator;

/// The numbers between which the clearing prices of periods lie, added up, in cents per MWh.
#[derive(Clone, Copy, PartialEq, Eq, Debug)]
pub struct PriceRange {
    /// The price at the greatest net volume.
    pub lowest: i32,
    /// The price at the least net volume.
    pub highest: i32,
}

impl<A: Allocator> Curves<A> {
    /// The range in which the clearing prices of the curve's periods, added up, lie at every net volume at which each of
    /// them balances. Takes no memory.
    ///
    /// The prices fall as the net volume rises, so the ends of the curve give it. A curve without segments has no prices;
    /// its range is 0.
    pub fn price_range(&self, curve: Curve) -> PriceRange
        requires { (periods : List (List Step)) × (least : ℤ) × (most : ℤ)
            × IsCurveAt self.now curve periods least most }
        ensures prices { (periods : List (List Step)) (least most : ℤ)
            → IsCurveAt self.now curve periods least most
            → ArePricesIn periods least most result }
        ensures small { IsSmallRange last_period result }
    {
        laws::prices_fall_as_net_rises();
        dam_hour::laws::best_has_greatest_welfare();
        if curve.count == 0 {
            return PriceRange {
                lowest: 0,
                highest: 0,
            };
        }
        let segments = segments_of(&self.segments, curve);
        PriceRange {
            lowest: segments[0].end_price,
            highest: segments[segments.len() - 1].end_price,
        }
    }
}

//! Prices for every period, and what they say of welfare: a bound.

ghost use Rattle.std.specs.Prelude.{◌≡◌, ◌<◌, ◌≤◌, pos, length, replicate, All};
ghost use Rattle.dam_book.specs.Limits.{last_period, most_blocks};
ghost use Rattle.dam_blocks.specs.Problem.{ProblemState};
ghost use Rattle.dam_bound.specs.Prices.{bound_of, IsPricing};

use dam_blocks::{MOST_PERIODS, Selection};
use dam_book::MOST_BLOCKS;
use dam_curve::Line;

/// At some prices, the surplus of all hourly orders, and the surplus of each block: together a bound.
///
/// At any prices, the welfare of a selection is at most the surplus of all hourly orders plus the surpluses of the
/// selection's blocks. So the prices need not be clearing prices of anything. `laws::lines_bound_welfare` says so of the prices
/// and surpluses of lines that are nowhere below the curves of the classes. All numbers are in cents per MWh times
/// tenths of a MW.
#[derive(Clone, Copy)]
pub struct Pricing {
    /// The surplus of all hourly orders at the prices.
    pub base: i64,
    /// The surplus of each block at the prices, below 0 if it loses; 0 at the places past the last block.
    pub gains: [i64; MOST_BLOCKS],
    /// For each class of periods, at the place of its first period, the line over its welfare at the prices. The lines
    /// at other places are unspecified.
    pub lines: [Line; MOST_PERIODS],
}

impl Pricing {
    /// A pricing of zeros to be written over, which need not bound anything.
    pub fn placeholder() -> Pricing
        ensures { result ≡ record {
          base = pos 0;
          gains = replicate most_blocks (pos 0);
          lines = replicate last_period (record { price = pos 0; surplus = pos 0 });
        } }
    {
        Pricing {
            base: 0,
            gains: [0; MOST_BLOCKS],
            lines: [Line {
                price: 0,
                surplus: 0,
            }; MOST_PERIODS],
        }
    }

    /// The bound of the selections that accept `accepted`, any of the blocks at the places that are left open, and
    /// no others: the base, the gain of each block that is accepted, and each gain above 0 of an open one. A place that is
    /// left twice counts twice.
    pub fn bound(&self, accepted: Selection, undecided: &[u8]) -> i64
        requires pricing { (problem : ProblemState) × IsPricing problem self.now }
        requires places { All (λ place. place < most_blocks) undecided.now }
        requires few { length undecided.now ≤ most_blocks }
        ensures { result ≡ bound_of self.now accepted undecided.now }
    {
        let mut total = self.base;
        for place in 0..MOST_BLOCKS {
            if accepted.has(place) {
                total += self.gains[place];
            }
        }
        for place in undecided {
            total += self.gains[usize::from(*place)].max(0);
        }
        total
    }
}

//! A walk finds no prices itself: it asks an oracle for them, for welfares and for losses. The oracle of a search is the
//! class curves. It is a trait so that a test can count the calls.

ghost use Rattle.std.specs.Prelude.{◌≡◌, ◌<◌, ◌≤ℤ◌, ◌<ℤ◌, ◌↔◌, ℤ, List, Bool, Some, None, true, false, length, All, IfSome};
ghost use Rattle.dam_book.specs.Limits.{most_blocks};
ghost use Rattle.dam_blocks.specs.Problem.{ProblemState};
ghost use Rattle.dam_blocks.specs.Selection.{accepts};
ghost use Rattle.dam_blocks.specs.Eligible.{selection_welfare, ArePrices, HasNoLoss, IsEligible};
ghost use Rattle.dam_bound.specs.ClassPrices.{AreClassPrices};
ghost use Rattle.dam_bound.specs.NetLimits.{AreLimits};
ghost use Rattle.dam_bound.specs.Prices.{IsPricing};

use dam_blocks::Selection;
use dam_bound::{ClassCurves, ClassPrices, NetLimits, Pricing};
use std::alloc::Allocator;

/// An oracle for the prices, welfares and losses of a problem, as a walk by prices asks for them.
pub(crate) trait PriceOracle {
    /// The problem, without its rows.
    ghost problem: { Self → ProblemState };

    /// Writes a pricing by the prices that suit the selections that accept `accepted`, any of the undecided blocks, and
    /// nothing else.
    fn write_pricing(&self, accepted: Selection, undecided: &[u8], pricing: &mut Pricing)
        requires { All (λ place. place < most_blocks) undecided.now }
        ensures { IsPricing (problem self.now) pricing.new };

    /// The welfare of a selection, unless it has none or less than `least`; and the prices at which it clears.
    fn price_selection(
        &self,
        selection: Selection,
        pricing: &Pricing,
        least: i64,
        prices: &mut ClassPrices,
    ) -> Option<i64>
        requires { IsPricing (problem self.now) pricing.now }
        ensures some { IfSome result (λ w.
            (selection_welfare (problem self.now) selection ≡ Some w) × (least ≤ℤ w)) }
        ensures none { result ≡ None → (w : ℤ)
            → selection_welfare (problem self.now) selection ≡ Some w → w <ℤ least }
        ensures prices { IfSome result (λ w.
            AreClassPrices (problem self.now) selection prices.new.prices) };

    /// Whether some accepted block, together with its accepted descendants, loses at these prices of the selection.
    fn has_loss(&self, selection: Selection, prices: &ClassPrices) -> bool
        requires { AreClassPrices (problem self.now) selection prices.now.prices }
        ensures { (day : List ℤ)
            → ArePrices (problem self.now).blocks selection 1 (problem self.now).hours day
            → (result ≡ false) ↔ HasNoLoss (problem self.now).blocks selection day };

    /// Whether one of two blocks loses at the prices of any selection that accepts both, so that no eligible one does. It
    /// may be `false` even then.
    fn are_rivals(&self, sell: usize, buy: usize) -> bool
        requires sell { sell < length (problem self.now).blocks }
        requires buy { buy < length (problem self.now).blocks }
        ensures { result ≡ true → (selection : List Bool) (w : ℤ)
            → IsEligible (problem self.now) selection w
            → accepts selection sell ≡ true → accepts selection buy ≡ false };

    /// Limits that every eligible selection keeps.
    fn net_limits(&self) -> NetLimits
        ensures { AreLimits (problem self.now) result.limits };
}

impl<A: Allocator, B: Allocator> PriceOracle for ClassCurves<'_, A, B> {
    ghost problem = { λ problem. problem };

    fn write_pricing(&self, accepted: Selection, undecided: &[u8], pricing: &mut Pricing) {
        self.write_pricing(accepted, undecided, pricing);
    }

    fn price_selection(
        &self,
        selection: Selection,
        pricing: &Pricing,
        least: i64,
        prices: &mut ClassPrices,
    ) -> Option<i64> {
        self.price_selection(selection, pricing, least, prices)
    }

    fn has_loss(&self, selection: Selection, prices: &ClassPrices) -> bool {
        self.has_loss(selection, prices)
    }

    fn are_rivals(&self, sell: usize, buy: usize) -> bool {
        self.are_rivals(sell, buy)
    }

    fn net_limits(&self) -> NetLimits {
        self.net_limits()
    }
}

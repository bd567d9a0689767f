//! The bound and the slack with which the walk of a piece begins.

ghost use Rattle.std.specs.Prelude.{◌≡◌, ◌<◌, ◌≤◌, ℕ, ℤ, List, Bool, None, not, nat_lt, length, slice_index_or, All, IfSome};
ghost use Rattle.dam_book.specs.Limits.{most_blocks};
ghost use Rattle.dam_blocks.specs.Eligible.{IsEligible};
ghost use Rattle.dam_blocks.specs.Problem.{ProblemState};
ghost use Rattle.dam_bound.specs.NetLimits.{most_limits, limit_in, AreLimits, AreSlacks, HasSlack};
ghost use Rattle.dam_bound.specs.Prices.{bound_of, IsPricing};
ghost use Rattle.dam_search.specs.inside.PriceWalk.{slack_left, AgreesUnder};

use crate::decision_order::all_places;
use crate::price_oracle::PriceOracle;
use dam_blocks::Selection;
use dam_bound::{NetLimits, Pricing, Slack};

/// Writes a pricing, and returns its bound of the selections that accept `accepted`, any of the places of
/// `decision_order`, and nothing else. `accepted` are decisions on the first `depth` blocks.
///
/// The prices are those that suit one of the prefixes of these decisions: of all of them, and of none, those with the least
/// bound. A walk that decides one block after the other has the same bounds on its way. The prices of the whole prefix
/// alone may be poor ones, if the decisions are far from the best selection.
pub(crate) fn write_pricing_of_piece<P: PriceOracle>(
    oracle: &P,
    accepted: Selection,
    decision_order: &[u8],
    depth: usize,
    pricing: &mut Pricing,
) -> i64
    requires depth { depth ≤ most_blocks }
    requires places { All (λ place. place < most_blocks) decision_order.now }
    requires few { length decision_order.now ≤ most_blocks }
    ensures pricing { IsPricing (P.problem oracle.now) pricing.new }
    ensures bound { result ≡ bound_of pricing.new accepted decision_order.now }
{
    let places = all_places();
    let mut prefix = Selection::none();
    oracle.write_pricing(prefix, &places, pricing);
    let mut bound = pricing.bound(accepted, decision_order);
    for place in 0..depth {
        if accepted.has(place) {
            prefix = prefix.with(place);
        }
        let mut own_pricing = Pricing::placeholder();
        oracle.write_pricing(prefix, &places[place + 1..], &mut own_pricing);
        let own_bound = own_pricing.bound(accepted, decision_order);
        if own_bound < bound {
            bound = own_bound;
            *pricing = own_pricing;
        }
    }
    bound
}

/// The slack that the decisions of `accepted` on the first `depth` blocks leave; `None` only if no eligible selection has
/// them. Some may be left even if none has them.
pub(crate) fn slack_of_piece(
    net_limits: &NetLimits,
    accepted: Selection,
    depth: usize,
) -> Option<Slack>
    requires depth { depth ≤ most_blocks }
    requires limits { (problem : ProblemState) × AreLimits problem net_limits.now.limits }
    ensures none { result ≡ None → (problem : ProblemState) (selection : List Bool) (w : ℤ)
        → AreLimits problem net_limits.now.limits → IsEligible problem selection w
        → AgreesUnder depth accepted selection → ⊥ }
    ensures slacks { IfSome result (λ slack. AreSlacks slack.slacks) }
    ensures some { IfSome result (λ slack.
        (problem : ProblemState) (selection : List Bool) (w : ℤ)
        → AreLimits problem net_limits.now.limits → IsEligible problem selection w
        → AgreesUnder depth accepted selection
        → HasSlack net_limits.now.limits selection
        (λ place. not (nat_lt place depth)) slack.slacks) }
    ensures left { IfSome result (λ slack. (k : ℕ) (d : ℤ) → k < most_limits
        → slice_index_or slack.slacks k d
        ≡ slack_left (limit_in net_limits.now.limits k) accepted depth) }
{
    let mut slack = net_limits.slack();
    for place in 0..depth {
        let Some(next) = net_limits.slack_after(&slack, place, accepted.has(place)) else {
            return None;
        };
        slack = next;
    }
    Some(slack)
}

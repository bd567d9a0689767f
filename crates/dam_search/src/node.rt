//! Decisions on blocks in any order, and a bound that each of them keeps, or lowers by the size of the block's gain.

ghost use Rattle.std.specs.Prelude.{◌≡◌, ◌<◌, pos, ◌≤ℤ◌, not, All};
ghost use Rattle.dam_book.specs.Limits.{most_blocks};
ghost use Rattle.dam_bound.specs.Prices.{greatest_priced_gain};
ghost use Rattle.dam_blocks.specs.Magnitude.{IsWithin};
ghost use Rattle.dam_search.specs.inside.PriceWalk.{with_place_if, with_all, bound_after};

use dam_blocks::Selection;
use dam_bound::{Pricing, Slack};

/// A node of a walk by prices: decisions on some blocks, and the places of the others.
///
/// Its open selections are those that accept the accepted blocks, any of the undecided ones, and nothing else.
#[derive(Drop)]
pub(crate) struct Node<'a> {
    /// The blocks that are accepted.
    pub(crate) accepted: Selection,
    /// The blocks that are rejected.
    pub(crate) rejected: Selection,
    /// The places of the undecided blocks, in the order of the decisions on them.
    pub(crate) undecided: &'a [u8],
    /// At least the welfare of each open selection.
    pub(crate) bound: i64,
    /// The prices that give the bound.
    pub(crate) pricing: &'a Pricing,
    /// The slack that the decisions leave under the limits on net volumes.
    pub(crate) slack: &'a Slack,
}

/// The selection, which accepts the block at `place` too if `decided`.
fn with_place_if(decided: bool, selection: Selection, place: usize) -> Selection
    requires { place < most_blocks }
    ensures { result ≡ with_place_if decided selection place }
{
    if decided {
        selection.with(place)
    } else {
        selection
    }
}

/// The bound after a decision on a block with this gain. One against the sign of the gain costs its size.
fn bound_after(accept: bool, bound: i64, gain: i64) -> i64
    requires bound { pos 0 ≤ℤ bound }
    requires gain { IsWithin greatest_priced_gain gain }
    ensures { result ≡ bound_after accept bound gain }
{
    if accept {
        bound + gain.min(0)
    } else {
        bound - gain.max(0)
    }
}

impl Node<'_> {
    /// The open selection that accepts every undecided block. None ranks above it in the order of ties.
    pub(crate) fn highest_selection(&self) -> Selection
        requires { All (λ place. place < most_blocks) self.now.undecided.now }
        ensures { result ≡ with_all self.now.accepted self.now.undecided.now }
    {
        let mut highest = self.accepted;
        for place in self.undecided {
            highest = highest.with(usize::from(*place));
        }
        highest
    }

    /// The node with a decision on the block at `place`, which has this gain, and with `undecided` and `slack` left.
    pub(crate) fn after_decision<'b>(
        &'b self,
        place: usize,
        undecided: &'b [u8],
        accept: bool,
        gain: i64,
        slack: &'b Slack,
    ) -> Node<'b>
        requires place { place < most_blocks }
        requires bound { pos 0 ≤ℤ self.now.bound }
        requires gain { IsWithin greatest_priced_gain gain }
        ensures accepted { result.accepted ≡ with_place_if accept self.now.accepted place }
        ensures rejected { result.rejected ≡ with_place_if (not accept) self.now.rejected place }
        ensures undecided { result.undecided.now ≡ undecided.now }
        ensures bound { result.bound ≡ bound_after accept self.now.bound gain }
        ensures pricing { result.pricing.now ≡ self.now.pricing.now }
        ensures slack { result.slack.now ≡ slack.now }
    {
        Node {
            accepted: with_place_if(accept, self.accepted, place),
            rejected: with_place_if(!accept, self.rejected, place),
            undecided,
            bound: bound_after(accept, self.bound, gain),
            pricing: self.pricing,
            slack,
        }
    }
}

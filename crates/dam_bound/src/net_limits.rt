//! Limits on the net volumes of eligible selections, and the slack that decisions on blocks leave under them.

ghost use Rattle.std.specs.Prelude.{◌≡◌, ◌≢◌, ◌<◌, ◌*◌, ℕ, ℤ, pos, ◌-ℤ◌, ◌≤ℤ◌, ◌<ℤ◌, true, false, None, Some, List, Bool, slice_index_or, IfSome};
ghost use Rattle.dam_book.specs.Limits.{most_blocks, greatest_volume};
ghost use Rattle.dam_blocks.specs.Eligible.{IsEligible};
ghost use Rattle.dam_blocks.specs.Magnitude.{IsWithin};
ghost use Rattle.dam_blocks.specs.Problem.{ProblemState};
ghost use Rattle.dam_blocks.specs.Selection.{accepts};
ghost use Rattle.dam_bound.specs.NetLimits.{most_limits, limit_in, slack_taken, greatest_slack, AreLimits, AreSlacks, AreSlacksWithin, HasSlack, every_place};

use dam_book::MOST_BLOCKS;

/// The greatest number of limits.
pub const MOST_LIMITS: usize = 32;

/// A limit that every eligible selection keeps: the decisions on all blocks together take no more than its slack.
///
/// The numbers of the accepted blocks add up to at most some value. Accepting a block takes its number, if that is above 0.
/// Rejecting it takes the opposite number, if that is above 0. So no decision gives slack back.
#[derive(Clone, Copy)]
pub struct NetLimit {
    /// The number of each block, in tenths of a MW: its net volume in a class of periods, or the opposite.
    pub nets: [i32; MOST_BLOCKS],
    /// The slack before any decision, in tenths of a MW.
    pub slack: i32,
}

/// The limits of a search. One that allows everything may stand for a limit that is missing.
#[derive(Clone, Copy)]
pub struct NetLimits {
    /// The limits.
    pub limits: [NetLimit; MOST_LIMITS],
}

/// The slack that decisions leave under each limit, in tenths of a MW.
#[derive(Clone, Copy)]
pub struct Slack {
    /// The slack under the limit at the same place.
    pub slacks: [i32; MOST_LIMITS],
}

/// The slack that a decision on a block with this number takes.
#[inline(always)]
fn slack_taken(accept: bool, net: i32) -> i32
    requires { IsWithin greatest_volume net }
    ensures value { result ≡ slack_taken accept net }
    ensures least { pos 0 ≤ℤ result }
    ensures most { result ≤ℤ pos greatest_volume }
{
    if accept { net.max(0) } else { (-net).max(0) }
}

impl Slack {
    /// The least slack under a limit.
    #[inline(always)]
    fn least(&self) -> i32
        requires { AreSlacksWithin (2 * greatest_slack) self.now.slacks }
        ensures under { (k : ℕ) → k < most_limits
            → result ≤ℤ slice_index_or self.now.slacks k (pos 0) }
        ensures reached { (k : ℕ) × (k < most_limits)
            × (result ≡ slice_index_or self.now.slacks k (pos 0)) }
    {
        let mut least = self.slacks[0];
        for k in 1..MOST_LIMITS {
            least = least.min(self.slacks[k]);
        }
        least
    }
}

impl NetLimits {
    /// The slack under the limits before any decision.
    pub fn slack(&self) -> Slack
        requires { (problem : ProblemState) × AreLimits problem self.now.limits }
        ensures slacks { AreSlacks result.slacks }
        ensures eligible { (problem : ProblemState) (selection : List Bool) (w : ℤ)
            → AreLimits problem self.now.limits → IsEligible problem selection w
            → HasSlack self.now.limits selection every_place result.slacks }
        ensures whole { (k : ℕ) (d : ℤ) → k < most_limits
            → slice_index_or result.slacks k d ≡ (limit_in self.now.limits k).slack }
    {
        let mut slacks = [0; MOST_LIMITS];
        for k in 0..MOST_LIMITS {
            slacks[k] = self.limits[k].slack;
        }
        Slack { slacks }
    }

    /// The slack that is left after a decision on the block at the place, which may be below 0.
    #[inline(always)]
    fn lowered(&self, slack: &Slack, place: usize, accept: bool) -> Slack
        requires place { place < most_blocks }
        requires limits { (problem : ProblemState) × AreLimits problem self.now.limits }
        requires slacks { AreSlacks slack.now.slacks }
        ensures small { AreSlacksWithin (2 * greatest_slack) result.slacks }
        ensures lowered { (k : ℕ) (d : ℤ) → k < most_limits
            → slice_index_or result.slacks k d
            ≡ slice_index_or slack.now.slacks k d -ℤ slack_taken accept
            (slice_index_or (limit_in self.now.limits k).nets place (pos 0)) }
    {
        let mut slacks = slack.slacks;
        for k in 0..MOST_LIMITS {
            slacks[k] -= slack_taken(accept, self.limits[k].nets[place]);
        }
        Slack { slacks }
    }

    /// The slack that is left after a decision on the block at the place; `None` exactly if it takes more than there is under
    /// some limit. Then eligible selections never add this decision to those before it. Takes no memory.
    #[inline(always)]
    pub fn slack_after(&self, slack: &Slack, place: usize, accept: bool) -> Option<Slack>
        requires place { place < most_blocks }
        requires limits { (problem : ProblemState) × AreLimits problem self.now.limits }
        requires slacks { AreSlacks slack.now.slacks }
        ensures none { result ≡ None → (selection : List Bool) (free : ℕ → Bool)
            → HasSlack self.now.limits selection free slack.now.slacks
            → free place ≡ true → accepts selection place ≡ accept → ⊥ }
        ensures slacks { IfSome result (λ next. AreSlacks next.slacks) }
        ensures some { IfSome result (λ next. (selection : List Bool) (before after : ℕ → Bool)
            → HasSlack self.now.limits selection before slack.now.slacks
            → before place ≡ true → after place ≡ false
            → ((p : ℕ) → p ≢ place → after p ≡ before p)
            → accepts selection place ≡ accept
            → HasSlack self.now.limits selection after next.slacks) }
        ensures lowered { IfSome result (λ next. (k : ℕ) (d : ℤ) → k < most_limits
            → slice_index_or next.slacks k d
            ≡ slice_index_or slack.now.slacks k d -ℤ slack_taken accept
            (slice_index_or (limit_in self.now.limits k).nets place (pos 0))) }
        ensures left { IfSome result (λ next. (k : ℕ) → k < most_limits
            → pos 0 ≤ℤ slice_index_or next.slacks k (pos 0)) }
        ensures lacking { result ≡ None → (k : ℕ) × (k < most_limits)
            × ((slice_index_or slack.now.slacks k (pos 0) -ℤ slack_taken accept
            (slice_index_or (limit_in self.now.limits k).nets place (pos 0))) <ℤ pos 0) }
    {
        let next = self.lowered(slack, place, accept);
        if next.least() < 0 { None } else { Some(next) }
    }
}

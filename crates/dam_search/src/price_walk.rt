//! The walk by prices, with which a search walks a piece if its limit on nodes can't bind.

ghost use Rattle.std.specs.Prelude.{◌≡◌, ◌^◌, ◌<◌, ◌≤◌, ◌⊎◌, max, ℕ, ℤ, pos, ◌≤ℤ◌, ◌<ℤ◌, true, false, not};
ghost use Rattle.std.specs.Prelude.{Some, List, Bool, [], ◌∷◌, length, IfSome, IfNone};
ghost use Rattle.dam_book.specs.Limits.{most_blocks};
ghost use Rattle.dam_blocks.specs.Selection.{accepts, choice};
ghost use Rattle.dam_blocks.specs.Eligible.{IsEligible};
ghost use Rattle.dam_bound.specs.Relaxed.{without_rows};
ghost use Rattle.dam_bound.specs.Open.{IsOpen};
ghost use Rattle.dam_bound.specs.NetLimits.{AreLimits};
ghost use Rattle.dam_search.specs.Piece.{IsMatched, Rises, welfare_found, IsSound};
ghost use Rattle.dam_search.specs.inside.Conflicts.{AcceptsAll, AcceptsNone, AreConflicts, IsSetOf};
ghost use Rattle.dam_search.specs.inside.PriceWalk.{AreDecisions, IsBounded, IsNode, IsReady, IsWalkedOpen, IsDecisionOrder, with_place_if};

use crate::answer::PieceAnswer;
use crate::conflicts::Conflicts;
use crate::incumbent::Incumbent;
use crate::node::Node;
use crate::piece_start::{slack_of_piece, write_pricing_of_piece};
use crate::price_oracle::PriceOracle;
use crate::walk_state::{WalkState, bound_equals, bound_reaches, ranks_above_found};
use crate::welfare::{signed_welfare, solution_of};
use dam_blocks::{Problem, Selection, Solution, admissible, ranks_above};
use dam_bound::{ClassPrices, NetLimits, Pricing, Slack};
use std::alloc::Allocator;

/// The least number of undecided blocks for which a node gets prices of its own.
const LEAST_UNDECIDED_TO_REPRICE: usize = 10;

/// A problem, and the input of its walks by prices for the pieces of one cutting.
#[derive(Drop)]
pub(crate) struct PriceWalk<'a, A: Allocator, P: PriceOracle> {
    pub(crate) problem: &'a Problem<A>,
    pub(crate) oracle: &'a P,
    pub(crate) conflicts: &'a Conflicts,
    /// Limits that the net volumes of eligible selections keep to.
    pub(crate) net_limits: &'a NetLimits,
    /// The depth of the cutting.
    pub(crate) depth: usize,
    /// The places from the depth on, in the order in which they are decided.
    pub(crate) decision_order: &'a [u8],
    ghost same: { P.problem oracle.now ≡ without_rows problem.now },
    ghost are_conflicts: { AreConflicts problem.now conflicts.now },
    ghost are_limits: { AreLimits (P.problem oracle.now) net_limits.now.limits },
    ghost is_order: { IsDecisionOrder depth (length problem.now.blocks) decision_order.now },
}

/// The selection with its welfare, if that is at least the value read and the selection, if it is eligible, is the best
/// so far. The welfare of an eligible selection is never below 0.
fn solution_if_better(selection: Selection, welfare: i64, state: &WalkState) -> Option<Solution>
    ensures none { IfNone result
        ((welfare <ℤ pos state.now.incumbent_read)
        ⊎ IsMatched welfare selection state.now.best) }
    ensures some { IfSome result (λ b. (b.selection ≡ selection) × (pos b.welfare ≡ welfare)
        × Rises state.now.best (Some b)) }
{
    if welfare < 0 {
        return None;
    }
    let best = solution_of(selection, welfare);
    if state.incumbent_read <= best.welfare && ranks_above_found(&best, &state.best) {
        Some(best)
    } else {
        None
    }
}

/// Whether a node is passed over, since no open selection can change the find: its bound is less than the value read,
/// or it is the welfare of the selection found, and no open selection ranks above that one in the order of ties.
fn is_passed(node: &Node, state: &WalkState) -> bool
    requires { AreDecisions node.now.accepted node.now.rejected node.now.undecided.now }
    ensures passed { result ≡ true → (selection : List Bool) (w : ℤ)
        → IsOpen node.now.accepted node.now.undecided.now selection → w ≤ℤ node.now.bound
        → (w <ℤ pos state.now.incumbent_read) ⊎ IsMatched w selection state.now.best }
    ensures reached { result ≡ false
        → (pos state.now.incumbent_read ≤ℤ node.now.bound)
        × (state.now.incumbent_read < 2 ^ 63) }
{
    if !bound_reaches(node.bound, state.incumbent_read) {
        return true;
    }
    let Some(best) = state.best else {
        return false;
    };
    if !bound_equals(node.bound, best.welfare) {
        return false;
    }
    let highest = Solution {
        selection: node.highest_selection(),
        welfare: best.welfare,
    };
    !ranks_above(highest, best)
}

impl<A: Allocator, P: PriceOracle> PriceWalk<'_, A, P> {
    /// Takes the selection of a node that leaves no place, and offers its welfare, if it is eligible and the best so
    /// far.
    fn offer_if_best<I: Incumbent>(
        &self,
        selection: Selection,
        pricing: &Pricing,
        incumbent: &mut I,
        state: &mut WalkState,
    )
        requires long { length selection ≡ most_blocks }
        requires fits { state.old.incumbent_read < 2 ^ 63 }
        requires bounded { (bound : ℤ)
            × IsBounded (P.problem self.now.oracle.now) pricing.now selection [] bound }
        requires ready { IsReady
            (I.greatest_read incumbent.old) (I.greatest_offer incumbent.old) state.old }
        ensures walked { IsWalkedOpen self.now.problem.now selection []
            (I.greatest_offer incumbent.old)
            (I.greatest_read incumbent.new) (I.greatest_offer incumbent.new)
            state.old state.new }
        ensures kept { I.kept incumbent.new ≡ I.kept incumbent.old }
    {
        dam_blocks::laws::ranking_is_total();
        dam_bound::laws::balanced_selections_have_prices();
        let _invariant = self.problem.periods(); // for the proof: the invariant of a problem
        let mut prices = ClassPrices::placeholder();
        let Some(welfare) = self.oracle.price_selection(
            selection,
            pricing,
            signed_welfare(state.incumbent_read),
            &mut prices,
        )
        else {
            return;
        };
        let Some(best) = solution_if_better(selection, welfare, state) else {
            return;
        };
        if !admissible(self.problem, selection) {
            return;
        }
        if self.oracle.has_loss(selection, &prices) {
            return;
        }
        let offer = best.welfare;
        state.best = Some(best);
        incumbent.offer(offer);
    }

    /// Whether no eligible open selection of the node has this decision on the block at the place.
    fn forbids(&self, node: &Node, place: usize, accept: bool) -> bool
        requires { place < most_blocks }
        ensures { result ≡ true → (selection : List Bool) (w : ℤ)
            → IsEligible self.now.problem.now selection w
            → AcceptsAll node.now.accepted selection → AcceptsNone node.now.rejected selection
            → accepts selection place ≡ not accept }
    {
        if accept {
            self.conflicts
                .forbids_accepting(place, node.accepted, node.rejected)
        } else {
            self.conflicts.forbids_rejecting(place, node.accepted)
        }
    }

    /// Visits a node: reads the incumbent, and walks the node unless it is passed over.
    #[cycle(visit)]
    #[inline(always)]
    fn visit<I: Incumbent>(&self, node: &Node, incumbent: &mut I, state: &mut WalkState)
        requires node { IsNode self.now.problem.now (P.problem self.now.oracle.now)
            self.now.net_limits.now.limits node.now }
        requires ready { IsReady
            (I.greatest_read incumbent.old) (I.greatest_offer incumbent.old) state.old }
        ensures walked { IsWalkedOpen self.now.problem.now node.now.accepted node.now.undecided.now
            (I.greatest_offer incumbent.old)
            (I.greatest_read incumbent.new) (I.greatest_offer incumbent.new)
            state.old state.new }
        ensures kept { I.kept incumbent.new ≡ I.kept incumbent.old }
    {
        dam_bound::laws::pricing_bounds_open_selections();
        state.visited = state.visited.saturating_add(1);
        state.incumbent_read = incumbent.read();
        if is_passed(node, state) {
            return;
        }
        if node.undecided.len() < LEAST_UNDECIDED_TO_REPRICE {
            self.branch(node, incumbent, state);
            return;
        }
        self.branch_repriced(node, incumbent, state);
    }

    /// Walks a node with prices of its own, if they give it a lesser bound.
    ///
    /// It isn't inlined, since the prices take space on the stack.
    #[cycle(visit)]
    #[inline(never)]
    fn branch_repriced<I: Incumbent>(&self, node: &Node, incumbent: &mut I, state: &mut WalkState)
        requires node { IsNode self.now.problem.now (P.problem self.now.oracle.now)
            self.now.net_limits.now.limits node.now }
        requires reached { (pos state.old.incumbent_read ≤ℤ node.now.bound)
            × (state.old.incumbent_read < 2 ^ 63) }
        requires ready { IsReady
            (I.greatest_read incumbent.old) (I.greatest_offer incumbent.old) state.old }
        ensures walked { IsWalkedOpen self.now.problem.now node.now.accepted node.now.undecided.now
            (I.greatest_offer incumbent.old)
            (I.greatest_read incumbent.new) (I.greatest_offer incumbent.new)
            state.old state.new }
        ensures kept { I.kept incumbent.new ≡ I.kept incumbent.old }
    {
        dam_bound::laws::pricing_bounds_open_selections();
        let mut own_pricing = Pricing::placeholder();
        self.oracle
            .write_pricing(node.accepted, node.undecided, &mut own_pricing);
        let bound = own_pricing.bound(node.accepted, node.undecided);
        if bound >= node.bound {
            self.branch(node, incumbent, state);
            return;
        }
        let node = Node {
            accepted: node.accepted,
            rejected: node.rejected,
            undecided: node.undecided,
            bound,
            pricing: &own_pricing,
            slack: node.slack,
        };
        if is_passed(&node, state) {
            return;
        }
        self.branch(&node, incumbent, state);
    }

    /// Walks both decisions on the next place, first the one that the sign of the block's gain is for. If no place
    /// is left, it tries the selection.
    #[cycle(visit)]
    fn branch<I: Incumbent>(&self, node: &Node, incumbent: &mut I, state: &mut WalkState)
        requires node { IsNode self.now.problem.now (P.problem self.now.oracle.now)
            self.now.net_limits.now.limits node.now }
        requires reached { (pos state.old.incumbent_read ≤ℤ node.now.bound)
            × (state.old.incumbent_read < 2 ^ 63) }
        requires ready { IsReady
            (I.greatest_read incumbent.old) (I.greatest_offer incumbent.old) state.old }
        ensures walked { IsWalkedOpen self.now.problem.now node.now.accepted node.now.undecided.now
            (I.greatest_offer incumbent.old)
            (I.greatest_read incumbent.new) (I.greatest_offer incumbent.new)
            state.old state.new }
        ensures kept { I.kept incumbent.new ≡ I.kept incumbent.old }
    {
        dam_blocks::laws::ranking_is_total();
        let Some((place, rest)) = node.undecided.split_first() else {
            self.offer_if_best(node.accepted, node.pricing, incumbent, state);
            return;
        };
        let place = usize::from(*place);
        let accept = node.pricing.gains[place] >= 0;
        self.walk_decision(node, place, rest, accept, incumbent, state);
        self.walk_decision(node, place, rest, !accept, incumbent, state);
    }

    /// Walks the node with this decision on the block at `place`, unless no eligible selection has it, by the conflicts
    /// or by the slack that it leaves. `rest` are the places after `place`.
    #[cycle(visit)]
    fn walk_decision<I: Incumbent>(
        &self,
        node: &Node,
        place: usize,
        rest: &[u8],
        accept: bool,
        incumbent: &mut I,
        state: &mut WalkState,
    )
        requires split { node.now.undecided.now ≡ place ∷ rest.now }
        requires node { IsNode self.now.problem.now (P.problem self.now.oracle.now)
            self.now.net_limits.now.limits node.now }
        requires reached { pos 0 ≤ℤ node.now.bound }
        requires ready { IsReady
            (I.greatest_read incumbent.old) (I.greatest_offer incumbent.old) state.old }
        ensures walked { IsWalkedOpen self.now.problem.now
            (with_place_if accept node.now.accepted place) rest.now
            (I.greatest_offer incumbent.old)
            (I.greatest_read incumbent.new) (I.greatest_offer incumbent.new)
            state.old state.new }
        ensures kept { I.kept incumbent.new ≡ I.kept incumbent.old }
    {
        dam_bound::laws::gains_add_up();
        if self.forbids(node, place, accept) {
            return;
        }
        let Some(slack) = self.net_limits.slack_after(node.slack, place, accept) else {
            return;
        };
        let gain = node.pricing.gains[place];
        let next = (&*node).after_decision(place, &*rest, accept, gain, &slack);
        self.visit(&next, incumbent, state);
    }
}

/// The places under `depth` that the selection rejects.
fn rejected_under(depth: usize, selection: Selection) -> Selection
    requires { depth ≤ most_blocks }
    ensures { IsSetOf depth (λ place. not (accepts selection place)) result }
{
    let mut rejected = Selection::none();
    for place in 0..depth {
        if !selection.has(place) {
            rejected = rejected.with(place);
        }
    }
    rejected
}

impl<A: Allocator, P: PriceOracle> PriceWalk<'_, A, P> {
    /// Walks a piece of the cutting, and finds its best eligible selection, apart from those with less welfare than was
    /// read of the incumbent. The answer is always done. A node is visited when the incumbent is read for it, and its bound
    /// is compared with that.
    pub(crate) fn walk_by_prices<I: Incumbent>(&self, piece: u32, incumbent: &mut I) -> PieceAnswer
        requires depth { self.now.depth ≤ length self.now.problem.now.blocks }
        requires piece { piece < 2 ^ self.now.depth }
        ensures piece { result.piece ≡ piece }
        ensures sound { IsSound self.now.problem.now (choice self.now.depth piece)
            result.best result.incumbent_read result.done }
        ensures done { result.done ≡ true }

        // The incumbent after the call.
        ensures offered { I.greatest_offer incumbent.new
            ≡ max (I.greatest_offer incumbent.old) (welfare_found result.best) }
        ensures greatest_read { I.greatest_read incumbent.new
            ≡ max (I.greatest_read incumbent.old) result.incumbent_read }
        ensures kept { I.kept incumbent.new ≡ I.kept incumbent.old }
    {
        dam_blocks::laws::fronts_are_admissible();
        let _invariant = self.problem.periods(); // for the proof: the invariant of a problem
        let accepted = Selection::choice(self.depth, piece);
        if !admissible(self.problem, accepted) {
            return PieceAnswer::nothing_in(piece);
        }
        let Some(slack) = slack_of_piece(self.net_limits, accepted, self.depth) else {
            return PieceAnswer::nothing_in(piece);
        };
        let mut pricing = Pricing::placeholder();
        let bound = write_pricing_of_piece(
            self.oracle,
            accepted,
            self.decision_order,
            self.depth,
            &mut pricing,
        );
        let node = Node {
            accepted,
            rejected: rejected_under(self.depth, accepted),
            undecided: self.decision_order,
            bound,
            pricing: &pricing,
            slack: &slack,
        };
        let mut state = WalkState {
            best: None,
            incumbent_read: incumbent.read(),
            visited: 0,
        };
        self.visit(&node, incumbent, &mut state);
        PieceAnswer {
            piece,
            best: state.best,
            incumbent_read: state.incumbent_read,
            visited: state.visited,
            done: true,
        }
    }
}

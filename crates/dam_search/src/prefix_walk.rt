//! The walk by relaxed welfares, with which a search walks a piece if its limit on nodes can bind.

ghost use Rattle.std.specs.Prelude.{◌≡◌, ◌⊎◌, ◌-◌, ◌^◌, ◌<◌, ◌≤◌, max, true, false, Some, length, MatchOption};
ghost use Rattle.dam_blocks.specs.Selection.{choice};
ghost use Rattle.dam_bound.specs.Relaxed.{without_rows, relaxed_welfare, reaches};
ghost use Rattle.dam_search.specs.Piece.{welfare_found, IsSound, IsSpent};
ghost use Rattle.dam_search.specs.inside.PrefixWalk.{Finds, Covers, IsGoing, IsWalked};

use crate::answer::PieceAnswer;
use crate::incumbent::Incumbent;
use crate::prefix::Prefix;
use crate::walk_state::{WalkState, bound_equals, bound_reaches, ranks_above_found};
use dam_blocks::{Problem, Solution, Verdict, score};
use dam_bound::Relaxed;
use dam_plan::NodeCount;
use std::alloc::Allocator;

/// A problem, and the relaxed welfares by which its prefixes are walked.
#[derive(Drop)]
pub(crate) struct PrefixWalk<'a, A: Allocator, B: Allocator> {
    pub(crate) problem: &'a Problem<A>,
    pub(crate) relaxed: &'a Relaxed<B>,
    ghost same: { relaxed.now ≡ without_rows problem.now },
}

impl<'a, A: Allocator, B: Allocator> PrefixWalk<'a, A, B> {
    /// The walks of a problem's pieces, with its relaxed welfares.
    pub(crate) fn new(problem: &'a Problem<A>, relaxed: &'a Relaxed<B>) -> PrefixWalk<'a, A, B>
        requires { relaxed.now ≡ without_rows problem.now }
        ensures { result.problem.now ≡ problem.now }
    {
        PrefixWalk { problem, relaxed }
    }
}

impl<A: Allocator, B: Allocator> PrefixWalk<'_, A, B> {
    /// The prefix's bound, if it is at least the value.
    fn live_bound(&self, prefix: &Prefix, least: u64) -> Option<i64>
        requires { length prefix.now ≤ length self.now.problem.now.blocks }
        ensures { MatchOption result
            (reaches (relaxed_welfare self.now.problem.now prefix.now) least ≡ false)
            (λ bound. (relaxed_welfare self.now.problem.now prefix.now ≡ Some bound)
            × (reaches (relaxed_welfare self.now.problem.now prefix.now) least ≡ true)) }
    {
        let bound = self.relaxed.bound(prefix.selection(), prefix.depth())?;
        if bound_reaches(bound, least) {
            Some(bound)
        } else {
            None
        }
    }

    /// Takes the selection of a prefix that decides every block, and offers its welfare, if it is eligible, has at
    /// least the welfare that was read, and is the best so far.
    fn offer_if_best<I: Incumbent>(&self, prefix: &Prefix, incumbent: &mut I, state: &mut WalkState)
        requires full { length self.now.problem.now.blocks ≡ length prefix.now }
        requires offered { welfare_found state.old.best ≤ I.greatest_offer incumbent.old }
        ensures finds { Finds self.now.problem.now prefix.now state.old.best state.new.best }
        ensures covers { Covers self.now.problem.now prefix.now
            state.new.best state.new.incumbent_read }
        ensures offered { I.greatest_offer incumbent.new
            ≡ max (I.greatest_offer incumbent.old) (welfare_found state.new.best) }
        ensures greatest_read { I.greatest_read incumbent.new ≡ I.greatest_read incumbent.old }
        ensures kept { I.kept incumbent.new ≡ I.kept incumbent.old }
        ensures read { state.new.incumbent_read ≡ state.old.incumbent_read }
        ensures visited { state.new.visited ≡ state.old.visited }
    {
        dam_blocks::laws::verdict_tells_eligibility();
        dam_bound::laws::completions_split();
        let _invariant = self.problem.periods(); // for the proof: the invariant of a problem
        let selection = prefix.selection();
        let Verdict::Eligible(welfare) = score(self.problem, selection) else {
            return;
        };
        let candidate = Solution { selection, welfare };
        if welfare < state.incumbent_read || !ranks_above_found(&candidate, &state.best) {
            return;
        }
        state.best = Some(candidate);
        incumbent.offer(welfare);
    }

    /// Visits the prefix and the prefixes that extend it, as far as the limit on nodes allows. Returns whether no node
    /// is left.
    ///
    /// A prefix that the links and the groups don't admit is passed over without a visit. One whose bound is less than
    /// the value read is passed over after its own visit. 'Rejected' is walked before 'accepted', which finds good
    /// selections sooner. If the bound equals the value read, no completion has more welfare than that, and only the
    /// order of ties counts: 'accepted' comes first in it, and is walked first.
    fn visit<I: Incumbent>(
        &self,
        node_limit: NodeCount,
        prefix: &Prefix,
        incumbent: &mut I,
        state: &mut WalkState,
    ) -> bool
        requires depth { length prefix.now ≤ length self.now.problem.now.blocks }
        requires going { IsGoing self.now.problem.now node_limit
            (I.greatest_read incumbent.old) (I.greatest_offer incumbent.old) state.old }
        ensures walked { IsWalked self.now.problem.now prefix.now node_limit
            (I.greatest_read incumbent.old) (I.greatest_offer incumbent.old)
            (I.greatest_read incumbent.new) (I.greatest_offer incumbent.new)
            state.old state.new result }
        ensures kept { I.kept incumbent.new ≡ I.kept incumbent.old }
    {
        dam_blocks::laws::ranking_is_total();
        dam_bound::laws::relaxed_welfare_bounds_completions();
        dam_bound::laws::completions_split();
        if !prefix.is_admissible(self.problem) {
            return true;
        }
        if state.visited == node_limit {
            return false;
        }
        state.visited += 1;
        if prefix.depth() == self.problem.block_count() {
            self.offer_if_best(prefix, incumbent, state);
            return true;
        }
        state.incumbent_read = incumbent.read();
        let Some(bound) = self.live_bound(prefix, state.incumbent_read) else {
            return true;
        };
        let accept = bound_equals(bound, state.incumbent_read);
        if !self.visit(node_limit, &prefix.extended(accept), incumbent, state) {
            return false;
        }
        self.visit(node_limit, &prefix.extended(!accept), incumbent, state)
    }
}

impl<A: Allocator, B: Allocator> PrefixWalk<'_, A, B> {
    /// Walks a piece of the cutting that decides the first `depth` blocks. If the answer is `done`, it has the piece's
    /// best eligible selection, apart from those with less welfare than was read of the incumbent.
    ///
    /// In piece j the block at place i is accepted if the binary digit of j with weight 2 to the power
    /// `depth` - 1 - i is 0. A node is a prefix that extends the piece's. If the links and the groups admit
    /// it, it is visited when its bound is compared with the value read, or, if it decides every block, when
    /// its welfare is looked at; otherwise it is passed over without a visit. A node is never visited twice,
    /// and the answer isn't `done` if it takes more than `node_limit` nodes. The search takes no memory.
    pub(crate) fn walk_by_prefixes<I: Incumbent>(
        &self,
        piece: u32,
        depth: usize,
        node_limit: NodeCount,
        incumbent: &mut I,
    ) -> PieceAnswer
        requires depth { depth ≤ length self.now.problem.now.blocks }
        requires piece { piece < 2 ^ depth }
        ensures piece { result.piece ≡ piece }
        ensures sound { IsSound self.now.problem.now (choice depth piece)
            result.best result.incumbent_read result.done }
        ensures spent { IsSpent self.now.problem.now (choice depth piece)
            (length self.now.problem.now.blocks - depth) (I.greatest_read incumbent.old)
            node_limit result.visited result.incumbent_read result.done }

        // The incumbent after the call.
        ensures offered { I.greatest_offer incumbent.new
            ≡ max (I.greatest_offer incumbent.old) (welfare_found result.best) }
        ensures greatest_read { I.greatest_read incumbent.new
            ≡ max (I.greatest_read incumbent.old) result.incumbent_read }
        ensures kept { I.kept incumbent.new ≡ I.kept incumbent.old }

        // The greatest value read in the call. That the incumbent is read at each node under full depth is only tested.
        ensures read { 0 < result.visited → depth < length self.now.problem.now.blocks
            → result.incumbent_read ≡ I.greatest_read incumbent.new }
        ensures unread { (result.visited ≡ 0) ⊎ (depth ≡ length self.now.problem.now.blocks)
            → result.incumbent_read ≡ 0 }
    {
        let _invariant = self.problem.periods(); // for the proof: the invariant of a problem
        let mut state = WalkState {
            best: None,
            incumbent_read: 0,
            visited: 0,
        };
        let prefix = Prefix::of_piece(depth, piece);
        let done = self.visit(node_limit, &prefix, incumbent, &mut state);
        PieceAnswer {
            piece,
            best: state.best,
            incumbent_read: state.incumbent_read,
            visited: state.visited,
            done,
        }
    }
}

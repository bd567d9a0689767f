//! For each block the blocks that it needs or excludes, as sets, which a walk asks for at every node.

ghost use Rattle.std.specs.Prelude.{◌≡◌, ◌<◌, ◌≤◌, ℤ, true, false, List, Bool, length};
ghost use Rattle.dam_book.specs.Limits.{most_blocks};
ghost use Rattle.dam_blocks.specs.Problem.{ProblemState};
ghost use Rattle.dam_blocks.specs.Selection.{accepts};
ghost use Rattle.dam_blocks.specs.Eligible.{IsEligible};
ghost use Rattle.dam_bound.specs.Relaxed.{without_rows};
ghost use Rattle.dam_search.specs.inside.Conflicts.{AcceptsAll, AcceptsNone, AreConflicts, Excludes, IsSetOf, is_other_of_group};

use crate::price_oracle::PriceOracle;
use dam_blocks::{Block, Problem, Selection, are_of_one_group};
use dam_book::MOST_BLOCKS;
use dam_bound::{ancestors_of, descendants_of};
use std::alloc::Allocator;

/// Decisions that rule each other out, by links, by exclusive groups and by prices. A search asks for them at each of its
/// nodes, so they are made once, as sets of places.
#[derive(Drop)]
pub(crate) struct Conflicts {
    /// For each block those that it descends from. It can't be accepted without them.
    needs: [Selection; MOST_BLOCKS],
    /// For each block those that descend from it. They can't be accepted without it.
    needed_by: [Selection; MOST_BLOCKS],
    /// For each block the others of its exclusive group, and its rivals by prices. They can't be accepted with it.
    excludes: [Selection; MOST_BLOCKS],
}

impl Conflicts {
    /// The conflicts of a problem's blocks. The oracle says which blocks are rivals.
    pub(crate) fn of<A: Allocator, P: PriceOracle>(problem: &Problem<A>, oracle: &P) -> Conflicts
        requires { P.problem oracle.now ≡ without_rows problem.now }
        ensures { AreConflicts problem.now result }
    {
        dam_blocks::laws::admissible_keeps_ancestors_and_groups();
        let blocks = problem.blocks();
        let mut conflicts = Conflicts {
            needs: [Selection::none(); MOST_BLOCKS],
            needed_by: [Selection::none(); MOST_BLOCKS],
            excludes: [Selection::none(); MOST_BLOCKS],
        };
        for place in 0..blocks.len() {
            conflicts.needs[place] = ancestors_of(blocks, place);
            conflicts.needed_by[place] = descendants_of(blocks, place);
            conflicts.excludes[place] = with_rivals(
                oracle,
                place,
                blocks.len(),
                others_of_group(blocks, place),
            );
        }
        conflicts
    }

    /// Whether the block at the place can't be accepted with the accepted blocks and without the rejected ones. It may be impossible
    /// even if this is `false`.
    pub(crate) fn forbids_accepting(
        &self,
        place: usize,
        accepted: Selection,
        rejected: Selection,
    ) -> bool
        requires { place < most_blocks }
        ensures { result ≡ true → (problem : ProblemState) (selection : List Bool) (w : ℤ)
            → AreConflicts problem self.now → IsEligible problem selection w
            → AcceptsAll accepted selection → AcceptsNone rejected selection
            → accepts selection place ≡ false }
    {
        self.needs[place].meets(rejected) || self.excludes[place].meets(accepted)
    }

    /// Whether links forbid rejecting the block at the place if the accepted ones are. It may be impossible even if this is
    /// `false`.
    pub(crate) fn forbids_rejecting(&self, place: usize, accepted: Selection) -> bool
        requires { place < most_blocks }
        ensures { result ≡ true → (problem : ProblemState) (selection : List Bool) (w : ℤ)
            → AreConflicts problem self.now → IsEligible problem selection w
            → AcceptsAll accepted selection → accepts selection place ≡ true }
    {
        self.needed_by[place].meets(accepted)
    }
}

/// Whether the block at `other` is another one of the exclusive group of the block at `place`.
fn is_other_of_group(blocks: &[Block], place: usize, other: usize) -> bool
    requires place { place < length blocks.now }
    requires other { other < length blocks.now }
    ensures { result ≡ is_other_of_group blocks.now place other }
{
    other != place && are_of_one_group(&blocks[place], &blocks[other])
}

/// The places of the other blocks in the exclusive group of the block at `place`.
fn others_of_group(blocks: &[Block], place: usize) -> Selection
    requires few { length blocks.now ≤ most_blocks }
    requires place { place < length blocks.now }
    ensures { IsSetOf (length blocks.now) (is_other_of_group blocks.now place) result }
{
    let mut others = Selection::none();
    for other in 0..blocks.len() {
        if is_other_of_group(blocks, place, other) {
            others = others.with(other);
        }
    }
    others
}

/// Whether no eligible selection accepts the blocks at both places, since one of them would then lose. It may be `false`
/// even if none does.
fn are_rivals_either_way<P: PriceOracle>(oracle: &P, place: usize, other: usize) -> bool
    requires place { place < length (P.problem oracle.now).blocks }
    requires other { other < length (P.problem oracle.now).blocks }
    ensures { result ≡ true → (selection : List Bool) (w : ℤ)
        → IsEligible (P.problem oracle.now) selection w
        → accepts selection place ≡ true → accepts selection other ≡ false }
{
    oracle.are_rivals(place, other) || oracle.are_rivals(other, place)
}

/// `others`, and the rivals by prices of the block at `place` among the first `count` blocks.
fn with_rivals<P: PriceOracle>(
    oracle: &P,
    place: usize,
    count: usize,
    others: Selection,
) -> Selection
    requires few { count ≤ most_blocks }
    requires count { count ≤ length (P.problem oracle.now).blocks }
    requires place { place < length (P.problem oracle.now).blocks }
    requires others { Excludes (P.problem oracle.now) place others }
    ensures { Excludes (P.problem oracle.now) place result }
{
    let mut excluded = others;
    for other in 0..count {
        if are_rivals_either_way(oracle, place, other) {
            excluded = excluded.with(other);
        }
    }
    excluded
}

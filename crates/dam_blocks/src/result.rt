//! The order of results, by welfare and then by book order, and the best one by a try of every selection.

ghost use Rattle.std.specs.Prelude.{◌≡◌, ◌⊎◌, ℤ, pos, MatchBool};
ghost use Rattle.dam_blocks.specs.Selection.{empty_selection};
ghost use Rattle.dam_blocks.specs.Eligible.{IsEligible};
ghost use Rattle.dam_blocks.specs.Result.{accepts_first, RanksAbove, RanksAtOrBelow, IsResult};
ghost use Rattle.dam_blocks.specs.inside.Better.{RanksNoHigher};

use crate::laws;
use crate::problem::Problem;
use crate::scoring::{Verdict, score};
use crate::selection::{Selection, Solution, choice_count};
use dam_book::MOST_BLOCKS;
use std::alloc::Allocator;

/// Whether the first is the better result: it has the greater welfare, or the same, and then it accepts
/// the first block at which they differ.
pub fn ranks_above(first: Solution, second: Solution) -> bool
    ensures { MatchBool result
        (RanksAbove (pos first.welfare) first.selection (pos second.welfare) second.selection)
        (RanksAtOrBelow (pos first.welfare) first.selection (pos second.welfare) second.selection) }
{
    if first.welfare != second.welfare {
        return first.welfare > second.welfare;
    }
    accepts_first(first.selection, second.selection)
}

/// Whether the first accepts at the first place at which they differ.
fn accepts_first(first: Selection, second: Selection) -> bool
    ensures { result ≡ accepts_first first second }
{
    first.use_invariant();
    second.use_invariant();
    for place in 0..MOST_BLOCKS {
        let accepted = first.has(place);
        if accepted != second.has(place) {
            return accepted;
        }
    }
    false
}

/// The empty selection, which is eligible, and its welfare. Takes no memory.
pub fn empty_solution<A: Allocator>(problem: &Problem<A>) -> Solution
    ensures none { result.selection ≡ empty_selection }
    ensures eligible { IsEligible problem.now result.selection (pos result.welfare) }
{
    laws::empty_is_eligible();
    let _invariant = problem.periods(); // for the proof: the invariant of a problem
    let selection = Selection::none();
    match score(problem, selection) {
        Verdict::Eligible(welfare) => Solution { selection, welfare },
        _ => unreachable!(),
    }
}

/// The one of the two that ranks above the other.
fn higher(first: &Solution, second: &Solution) -> Solution
    ensures either { (result ≡ first.now) ⊎ (result ≡ second.now) }
    ensures first { RanksNoHigher first.now result }
    ensures second { RanksNoHigher second.now result }
{
    if ranks_above(*first, *second) {
        *first
    } else {
        *second
    }
}

/// The better of `best` and this selection, if that is eligible.
fn best_after_trying<A: Allocator>(
    problem: &Problem<A>,
    best: Solution,
    selection: Selection,
) -> Solution
    requires { IsEligible problem.now best.selection (pos best.welfare) }
    ensures eligible { IsEligible problem.now result.selection (pos result.welfare) }
    ensures kept { RanksNoHigher best result }
    ensures tried { (v : ℤ) → IsEligible problem.now selection v
        → RanksAtOrBelow v selection (pos result.welfare) result.selection }
{
    match score(problem, selection) {
        Verdict::Eligible(welfare) => higher(&Solution { selection, welfare }, &best),
        _ => best,
    }
}

/// The result of the problem, by trying every selection of its blocks.
///
/// It scores each selection of the blocks, 2 to the power of their number. It takes no memory.
pub fn best_of_all<A: Allocator>(problem: &Problem<A>) -> Solution
    ensures { IsResult problem.now result.selection (pos result.welfare) }
{
    let count = problem.block_count();
    let mut best = empty_solution(problem);
    for number in 0..choice_count(count) {
        best = best_after_trying(problem, best, Selection::choice(count, number));
    }
    best
}

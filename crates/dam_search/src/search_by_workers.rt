//! The search by several workers. `search_without_threads` has the same on the calling thread.

ghost use Rattle.std.specs.Prelude.{◌≡◌, min, length};
ghost use Rattle.dam_bound.specs.Relaxed.{without_rows};
ghost use Rattle.dam_search.specs.Search.{IsSearched};

use crate::collect::result_of_answers;
use crate::fault::SearchFault;
use crate::price_oracle::PriceOracle;
use crate::search_context::SearchContext;
use crate::workers::walk_all_pieces;
use dam_blocks::{Problem, Solution};
use dam_bound::ClassCurves;
use dam_plan::{Plan, Turnstile};
use std::alloc::Global;
use std::thread::Threads;

/// The result of the problem, by the cutting of the plan.
fn search_with_oracle<R: Threads + Sync, P: PriceOracle + Sync, T: Turnstile + Sync>(
    rt: &R,
    alloc: Global,
    problem: &Problem,
    oracle: &P,
    plan: Plan,
    turnstile: &T,
) -> Result<Solution, SearchFault>
    requires { P.problem oracle.now ≡ without_rows problem.now }
    ensures { IsSearched problem.now (min plan.cut (length problem.now.blocks))
        plan.node_limit result }
{
    let depth = plan.depth(problem.block_count());
    let node_limit = plan.node_limit();
    let context = SearchContext::of(alloc, problem, oracle, depth, node_limit)?;
    let walked = walk_all_pieces(rt, &context, plan.workers(), turnstile)?;
    result_of_answers(problem, depth, node_limit, &walked.answers)
}

/// The result of a problem (`IsResult`): the eligible selection that no eligible one ranks above. Ties go to the one
/// that accepts the block at the first place where two differ. No plan and no order in which the workers happen to
/// run changes it.
///
/// The search first finds a good selection, and offers its welfare before any worker starts. The cutting decides as
/// many of the first blocks as the plan says, or all of them if there are fewer. The workers, each on a thread of its
/// own, draw its pieces as they come free, and prune by the greatest welfare that any of them has found. If a thread
/// can't be made, the calling one does its work.
///
/// The clause says three things more. If there is a result, the limit on nodes is at least the number that each piece
/// must visit, so a lesser limit gives none. `Unfinished` names the least piece that isn't finished. No search ends in
/// `AnswerMissingOrRepeated`. The fault `Memory` comes before `Unfinished`.
pub fn search<R: Threads + Sync, T: Turnstile + Sync>(
    rt: &R,
    alloc: Global,
    problem: &Problem,
    plan: Plan,
    turnstile: &T,
) -> Result<Solution, SearchFault>
    ensures { IsSearched problem.now (min plan.cut (length problem.now.blocks))
        plan.node_limit result }
{
    let curves = ClassCurves::of(alloc, problem)?;
    search_with_oracle(rt, alloc, problem, &curves, plan, turnstile)
}

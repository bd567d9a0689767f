//! The search on the calling thread alone.

ghost use Rattle.std.specs.Prelude.{◌≡◌};
ghost use Rattle.dam_bound.specs.Relaxed.{without_rows};
ghost use Rattle.dam_search.specs.Search.{IsSearched};

use crate::collect::result_of_answers;
use crate::fault::SearchFault;
use crate::incumbent::{Incumbent, OwnIncumbent};
use crate::price_oracle::PriceOracle;
use crate::search_context::SearchContext;
use dam_blocks::{Problem, Solution};
use dam_bound::ClassCurves;
use dam_plan::NodeCount;
use std::alloc::Global;

/// The result of the problem, whose whole search is piece 0.
fn search_alone_with_oracle<P: PriceOracle>(
    alloc: Global,
    problem: &Problem,
    oracle: &P,
    node_limit: NodeCount,
) -> Result<Solution, SearchFault>
    requires { P.problem oracle.now ≡ without_rows problem.now }
    ensures { IsSearched problem.now 0 node_limit result }
{
    let context = SearchContext::of(alloc, problem, oracle, 0, node_limit)?;
    let mut incumbent = OwnIncumbent::new();
    incumbent.offer(context.first_welfare);
    let answer = context.walk_piece(0, &mut incumbent);
    result_of_answers(problem, 0, node_limit, &[answer])
}

/// The result of a problem, found on the calling thread alone, without other threads, locks or shared
/// words. It is for callers that can't start threads.
///
/// It finds the result of `search`, whose clause it has for a plan that cuts nothing. The whole search
/// is piece 0. If it needs more than `node_limit` nodes, it is unfinished; `MOST_NODES` are enough for any problem.
pub fn search_alone(
    alloc: Global,
    problem: &Problem,
    node_limit: NodeCount,
) -> Result<Solution, SearchFault>
    ensures { IsSearched problem.now 0 node_limit result }
{
    let curves = ClassCurves::of(alloc, problem)?;
    search_alone_with_oracle(alloc, problem, &curves, node_limit)
}

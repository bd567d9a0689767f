//! The context of a search, which its workers share, and the choice of the method by which its pieces are walked.

ghost use Rattle.std.specs.Prelude.{◌≡◌, ◌-◌, ◌^◌, ◌<◌, ◌≤◌, max, nat_lt, length, IfOk};
ghost use Rattle.dam_book.specs.Limits.{most_blocks};
ghost use Rattle.dam_plan.specs.Limits.{most_cut};
ghost use Rattle.dam_bound.specs.Relaxed.{without_rows};
ghost use Rattle.dam_search.specs.Answer.{IsReached};
ghost use Rattle.dam_search.specs.Piece.{node_count, welfare_found};
ghost use Rattle.dam_search.specs.inside.Work.{IsWalkedPiece};
ghost use Rattle.dam_search.specs.inside.WalkMethod.{IsWalkMethod, is_walk_method-proposition};

use crate::answer::PieceAnswer;
use crate::conflicts::Conflicts;
use crate::decision_order::decision_order;
use crate::first_selection::first_selection;
use crate::incumbent::Incumbent;
use crate::prefix_walk::PrefixWalk;
use crate::price_oracle::PriceOracle;
use crate::price_walk::PriceWalk;
use dam_blocks::Problem;
use dam_bound::{NetLimits, Relaxed};
use dam_plan::NodeCount;
use std::alloc::{AllocError, Allocator, Global};

/// The method by which the pieces of a cutting are walked, with its input.
#[derive(Drop)]
pub(crate) enum WalkMethod {
    /// By bounds at prices, to the end of each piece. It doesn't count nodes as the limit does.
    ByPrices {
        conflicts: Conflicts,
        net_limits: NetLimits,
        decision_order: Vec<u8>,
    },
    /// By the relaxed welfare of each prefix. It counts nodes as the limit does.
    ByPrefixes {
        relaxed: Relaxed<Global>,
    },
}

/// The context of a search: its problem, its cutting, and the method by which its pieces are walked. All workers share it.
#[derive(Drop)]
pub(crate) struct SearchContext<'a, P: PriceOracle> {
    pub(crate) alloc: Global,
    pub(crate) problem: &'a Problem,
    oracle: &'a P,
    /// The depth of the cutting.
    pub(crate) depth: usize,
    /// The limit on the nodes of each piece.
    pub(crate) node_limit: NodeCount,
    /// The welfare of the first selection, which is offered before any piece is walked.
    pub(crate) first_welfare: u64,
    method: WalkMethod,
    ghost inside: { depth ≤ length problem.now.blocks },
    ghost few: { depth ≤ most_cut },
    ghost same: { P.problem oracle.now ≡ without_rows problem.now },
    ghost suits: { IsWalkMethod problem.now (P.problem oracle.now) depth
        node_limit method } by { is_walk_method-proposition problem.now (P.problem oracle.now)
            depth node_limit method },
}

/// The most nodes that there are if this number of blocks is undecided.
fn node_count(undecided_count: usize) -> NodeCount
    requires { undecided_count ≤ most_blocks }
    ensures { result ≡ node_count undecided_count }
{
    (1 << (undecided_count + 1)) - 1
}

/// Whether the limit on nodes can bind: a piece of a cutting of this depth can have more nodes.
fn limit_can_bind<A: Allocator>(problem: &Problem<A>, depth: usize, node_limit: NodeCount) -> bool
    requires { depth ≤ length problem.now.blocks }
    ensures { result ≡ nat_lt node_limit (node_count (length problem.now.blocks - depth)) }
{
    node_limit < node_count(problem.block_count() - depth)
}

/// The method that suits the limit: by prices, unless the limit can bind.
fn walk_method_for<P: PriceOracle>(
    alloc: Global,
    problem: &Problem,
    oracle: &P,
    depth: usize,
    node_limit: NodeCount,
) -> Result<WalkMethod, AllocError>
    requires depth { depth ≤ length problem.now.blocks }
    requires same { P.problem oracle.now ≡ without_rows problem.now }
    ensures { IfOk result (λ method.
        IsWalkMethod problem.now (P.problem oracle.now) depth node_limit method) }
{
    if limit_can_bind(problem, depth, node_limit) {
        let relaxed = Relaxed::build(alloc, problem)?;
        return Ok(WalkMethod::ByPrefixes { relaxed });
    }
    let conflicts = Conflicts::of(problem, oracle);
    let net_limits = oracle.net_limits();
    let decision_order = decision_order(alloc, problem, depth)?;
    Ok(WalkMethod::ByPrices {
        conflicts,
        net_limits,
        decision_order,
    })
}

impl<'a, P: PriceOracle> SearchContext<'a, P> {
    /// The context of a search by the cutting of this depth, with this limit on the nodes of each piece. The error is out of
    /// memory.
    pub(crate) fn of(
        alloc: Global,
        problem: &'a Problem,
        oracle: &'a P,
        depth: usize,
        node_limit: NodeCount,
    ) -> Result<SearchContext<'a, P>, AllocError>
        requires inside { depth ≤ length problem.now.blocks }
        requires few { depth ≤ most_cut }
        requires same { P.problem oracle.now ≡ without_rows problem.now }
        ensures same { IfOk result (λ context. (context.problem.now ≡ problem.now)
            × (context.depth ≡ depth) × (context.node_limit ≡ node_limit)) }
        ensures reached { IfOk result (λ context. IsReached problem.now context.first_welfare) }
    {
        let first_welfare = first_selection(problem, oracle).welfare;
        let method = walk_method_for(alloc, problem, oracle, depth, node_limit)?;
        Ok(SearchContext {
            alloc,
            problem,
            oracle,
            depth,
            node_limit,
            first_welfare,
            method,
        })
    }
}

impl<P: PriceOracle> SearchContext<'_, P> {
    /// Walks a piece of the cutting. If the answer is `done`, it has the piece's best eligible selection, apart from those with
    /// less welfare than was read of the incumbent.
    pub(crate) fn walk_piece<I: Incumbent>(&self, piece: u32, incumbent: &mut I) -> PieceAnswer
        requires { piece < 2 ^ self.now.depth }
        ensures piece { result.piece ≡ piece }
        ensures walked { IsWalkedPiece self.now.problem.now self.now.depth self.now.node_limit
            result }
        ensures offered { I.greatest_offer incumbent.new
            ≡ max (I.greatest_offer incumbent.old) (welfare_found result.best) }
        ensures greatest_read { I.greatest_read incumbent.new
            ≡ max (I.greatest_read incumbent.old) result.incumbent_read }
        ensures kept { I.kept incumbent.new ≡ I.kept incumbent.old }
    {
        match &self.method {
            WalkMethod::ByPrices {
                conflicts,
                net_limits,
                decision_order,
            } => {
                let walk = PriceWalk {
                    problem: self.problem,
                    oracle: self.oracle,
                    conflicts,
                    net_limits,
                    depth: self.depth,
                    decision_order,
                };
                walk.walk_by_prices(piece, incumbent)
            }
            WalkMethod::ByPrefixes { relaxed } => {
                let walk = PrefixWalk::new(self.problem, relaxed);
                walk.walk_by_prefixes(piece, self.depth, self.node_limit, incumbent)
            }
        }
    }
}

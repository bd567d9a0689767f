//! A bound on a prefix: its undecided blocks may be executed in part, and in each period apart from the others.

ghost use Rattle.std.specs.Prelude.{◌≡◌, ◌<◌, ◌≤◌, ◌++◌, List, Bool, Some, None, length, drop, map, IfOk, IfSome};
ghost use Rattle.dam_book.specs.Limits.{most_blocks};
ghost use Rattle.dam_blocks.specs.Problem.{AreBlocks};
ghost use Rattle.dam_blocks.specs.Selection.{padded};
ghost use Rattle.dam_blocks.specs.Eligible.{period_welfare};
ghost use Rattle.dam_blocks.specs.Magnitude.{IsWithin};
ghost use Rattle.dam_bound.specs.Relaxed.{as_steps, relaxed_welfare, without_rows};
ghost use Rattle.dam_bound.specs.inside.Levels.{AreLevels, AreLevelsAt, last_steps, AreDayLevels};
ghost use Rattle.dam_bound.specs.inside.Levels.{greatest_period_bound};

use crate::levels::Levels;
use dam_blocks::{Block, Problem, Selection, accepted_value, laws, net_volume};
use dam_book::Period;
use std::alloc::{AllocError, Allocator, Global};
use std::marker::Model;

/// The source of the bounds of a problem's prefixes: at each depth each period's hourly orders,
/// and with them every undecided block as an order of its own in each of its periods. `bound` clears them
/// as hours.
///
/// A contract sees the problem that it was built of, without its rows.
#[derive(Drop)]
pub struct Relaxed<A: Allocator = Global> {
    periods: Vec<Levels<A>, A>,
    blocks: Vec<Block, A>,
}

impl<A: Allocator> Model for Relaxed<A> {
    ghost use Rattle.std.specs.Prelude.{length};
    ghost use Rattle.dam_blocks.specs.Problem.{ProblemState, AreBlocks};
    ghost use Rattle.dam_bound.specs.inside.Levels.{AreDayLevels, problem_kept};

    ghost Value = { ProblemState };

    ghost view = { λ r. problem_kept r.periods.items r.blocks.items };

    ghost invariant = { λ r. AreDayLevels r.blocks.items r.periods.items
        × AreBlocks (length r.periods.items) r.blocks.items };
}

/// Copies of the blocks. The error is out of memory.
fn copy_blocks<A: Allocator>(alloc: A, blocks: &[Block]) -> Result<Vec<Block, A>, AllocError>
    ensures { IfOk result (λ copies. copies.items ≡ blocks.now) }
{
    let mut copies = Vec::with_capacity(alloc, blocks.len())?;
    for block in blocks {
        copies.push(block.copy())?;
    }
    Ok(copies)
}

/// The levels of the period at the place.
fn build_levels<A: Allocator + Copy, B: Allocator>(
    alloc: A,
    problem: &Problem<B>,
    place: usize,
) -> Result<Levels<A>, AllocError>
    requires { place < length problem.now.hours }
    ensures { IfOk result (AreLevelsAt problem.now.hours problem.now.blocks place) }
{
    let blocks = problem.blocks();
    let period = Period::at(place);
    let steps = problem.steps(period).unwrap();
    Levels::of(alloc, steps, blocks, period)
}

/// The levels of each period of the day.
fn build_all_levels<A: Allocator + Copy, B: Allocator>(
    alloc: A,
    problem: &Problem<B>,
) -> Result<Vec<Levels<A>, A>, AllocError>
    ensures levels { IfOk result (λ periods. AreDayLevels problem.now.blocks periods.items) }
    ensures hours { IfOk result (λ periods. map last_steps periods.items ≡ problem.now.hours) }
    ensures blocks { IfOk result (λ periods.
        AreBlocks (length periods.items) problem.now.blocks) }
{
    let count = usize::from(problem.periods().get());
    let mut periods = Vec::with_capacity(alloc, count)?;
    for place in 0..count {
        periods.push(build_levels(alloc, problem, place)?)?;
    }
    Ok(periods)
}

impl<A: Allocator + Copy> Relaxed<A> {
    /// The levels of a problem. The error is out of memory.
    pub fn build<B: Allocator>(alloc: A, problem: &Problem<B>) -> Result<Relaxed<A>, AllocError>
        ensures { IfOk result (λ relaxed. relaxed ≡ without_rows problem.now) }
    {
        let periods = build_all_levels(alloc, problem)?;
        let blocks = copy_blocks(alloc, problem.blocks())?;
        Ok(Relaxed { periods, blocks })
    }
}

/// The greatest welfare of a period at a depth, with the value of the accepted blocks there; `None`
/// if no execution balances.
fn period_bound<A: Allocator>(
    levels: &Levels<A>,
    blocks: &[Block],
    accepted: Selection,
    depth: usize,
    period: Period,
) -> Option<i64>
    requires levels { AreLevels period (last_steps levels.now) blocks.now levels.now }
    requires depth { depth ≤ length blocks.now }
    requires blocks { length blocks.now ≤ most_blocks }
    ensures value { result ≡ period_welfare blocks.now accepted period
        (last_steps levels.now ++ as_steps period (drop depth blocks.now)) }
    ensures size { IfSome result (IsWithin greatest_period_bound) }
{
    let hour = levels.hour(depth);
    let cleared = hour.clear(net_volume(blocks, accepted, period))?;
    Some(cleared.welfare + accepted_value(blocks, accepted, period))
}

impl<A: Allocator> Relaxed<A> {
    /// A bound on the welfare of the selections that agree with a prefix: the first `depth`
    /// blocks are decided, those in `accepted` accepted and the others rejected; in cents per MWh times tenths of a
    /// MW.
    ///
    /// It is the welfare of the prefix if each undecided block may be executed in part, in each
    /// of its periods apart from the others: the sum over the periods of the greatest welfare with
    /// the undecided blocks as orders, and the accepted buy blocks' limit times volume less the
    /// accepted sell blocks'. It may be below 0. `None` exactly if some period so relaxed has no
    /// execution that balances. The result is unspecified if `accepted` has a block past the decided
    /// ones. Takes no memory.
    pub fn bound(&self, accepted: Selection, depth: usize) -> Option<i64>
        requires { depth ≤ length self.now.blocks }
        ensures { (prefix : List Bool) → length prefix ≡ depth → accepted ≡ padded prefix
            → result ≡ relaxed_welfare self.now prefix }
    {
        prove!(depth <= self.blocks.len());
        laws::sums_split_at_fronts();
        let mut total = 0;
        for (place, levels) in self.periods.iter().enumerate() {
            let period = Period::at(place);
            let welfare = period_bound(levels, &self.blocks, accepted, depth, period)?;
            total += welfare;
        }
        Some(total)
    }
}

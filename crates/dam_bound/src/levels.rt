//! The hours of a period at each depth, each made from the one before it without one block, with nothing to sort.

ghost use Rattle.std.specs.Prelude.{◌≡◌, ◌≤◌, ◌++◌, List, length, IfOk, MatchOption};
ghost use Rattle.dam_book.specs.Limits.{most_hourly, most_blocks};
ghost use Rattle.dam_hour.specs.Execution.{IsHour};
ghost use Rattle.dam_hour.specs.declared.step.Step.{Step};
ghost use Rattle.dam_blocks.specs.Selection.{volume_in};
ghost use Rattle.dam_bound.specs.Relaxed.{step_of, as_steps};
ghost use Rattle.dam_bound.specs.inside.Levels.{IsAtDepth, AreLevels, last_steps};

use dam_blocks::{Block, volume_in};
use dam_book::{BlockOrder, Period, Qty};
use dam_hour::{Hour, Step};
use std::alloc::{AllocError, Allocator};
use std::marker::Model;

/// The block as a step of the period, if it has a volume there.
fn step_in(order: &BlockOrder, period: Period) -> Option<Step>
    ensures { MatchOption result (volume_in order.now.volumes period ≡ 0)
        (λ step. (1 ≤ volume_in order.now.volumes period)
        × (step ≡ step_of period order.now)) }
{
    let qty = Qty::new(volume_in(order.volumes(), period))?;
    Some(Step {
        side: order.side(),
        price: order.price(),
        qty,
    })
}

/// The steps, and after them the blocks as steps of the period.
fn relaxed_steps<A: Allocator>(
    alloc: A,
    steps: &[Step],
    blocks: &[Block],
    period: Period,
) -> Result<Vec<Step, A>, AllocError>
    ensures { IfOk result (λ relaxed. relaxed.items ≡ steps.now ++ as_steps period blocks.now) }
{
    let mut relaxed = Vec::new(alloc);
    relaxed.extend_from_slice(steps)?;
    for block in blocks {
        if let Some(step) = step_in(&block.order, period) {
            relaxed.push(step)?;
        }
    }
    Ok(relaxed)
}

/// The hour of the steps, and after them of the blocks as steps of the period.
fn relaxed_hour<A: Allocator + Copy>(
    alloc: A,
    steps: &[Step],
    blocks: &[Block],
    period: Period,
) -> Result<Hour<A>, AllocError>
    requires steps { length steps.now ≤ most_hourly }
    requires blocks { length blocks.now ≤ most_blocks }
    ensures { IfOk result (λ hour. hour ≡ steps.now ++ as_steps period blocks.now) }
{
    let relaxed = relaxed_steps(alloc, steps, blocks, period)?;
    Hour::build(alloc, &relaxed)
}

/// A period with its undecided blocks as steps, at each depth, which is the number of first blocks that
/// are decided.
///
/// Depths between which no block has a volume in the period share an hour.
#[derive(Drop)]
pub(crate) struct Levels<A: Allocator> {
    /// The hours by falling number of undecided blocks, each made from the one before it.
    hours: Vec<Hour<A>, A>,
    /// For each depth the place of its hour.
    places: Vec<usize, A>,
}

impl<A: Allocator> Model for Levels<A> {
    ghost use Rattle.dam_bound.specs.inside.Levels.{LevelsState};

    ghost Value = { LevelsState };

    ghost view = { λ l. record { hours = l.hours.items; places = l.places.items } };
}

impl<A: Allocator + Copy> Levels<A> {
    /// The levels of a period with these steps and these blocks.
    pub(crate) fn of(
        alloc: A,
        steps: &[Step],
        blocks: &[Block],
        period: Period,
    ) -> Result<Levels<A>, AllocError>
        requires steps { length steps.now ≤ most_hourly }
        requires blocks { length blocks.now ≤ most_blocks }
        ensures levels { IfOk result (λ levels. AreLevels period steps.now blocks.now levels) }
        ensures last { IfOk result (λ levels. last_steps levels ≡ steps.now) }
    {
        let mut hours = Vec::new(alloc);
        let mut places = Vec::with_capacity(alloc, blocks.len() + 1)?;
        hours.push(relaxed_hour(alloc, steps, blocks, period)?)?;
        places.push(0)?;
        for block in blocks {
            if volume_in(block.order.volumes(), period) > 0 {
                let above = &hours[hours.len() - 1];
                let hour = above.without(alloc, steps.len())?;
                hours.push(hour)?;
            }
            places.push(hours.len() - 1)?;
        }
        Ok(Levels { hours, places })
    }
}

impl<A: Allocator> Levels<A> {
    /// The hour at a depth.
    pub(crate) fn hour(&self, depth: usize) -> &Hour<A>
        requires { (steps : List Step) × IsAtDepth self.now depth steps }
        ensures value { (steps : List Step) → IsAtDepth self.now depth steps
            → result.now ≡ steps }
        ensures steps { IsHour result.now }
    {
        let hour = &self.hours[self.places[depth]];
        let _few = hour.len(); // for the proof: the steps are few
        hour
    }
}

//! The making of the classes of a problem with their curves.

ghost use Rattle.std.specs.Prelude.{◌≡◌, ◌<◌, ◌≤◌, ◌+◌, ℕ, [], length, IfOk, OnOk};
ghost use Rattle.dam_book.specs.Limits.{most_blocks, last_period, greatest_volume};
ghost use Rattle.dam_curve.specs.Curve.{IsCurve, IsCurveAt, Keeps};
ghost use Rattle.dam_blocks.specs.Problem.{AreBlocks};
ghost use Rattle.dam_blocks.specs.Selection.{net_volume_of_block, value_in};
ghost use Rattle.dam_bound.specs.ClassCurves.{class_orders, AreClasses};
ghost use Rattle.dam_bound.specs.Classes.{AreFirsts};
ghost use Rattle.dam_bound.specs.Relaxed.{without_rows};
ghost use Rattle.dam_bound.specs.Sums.{at_places, over_periods};
ghost use Rattle.dam_bound.specs.inside.BlockNumbers.{AreNumbersWithin, negative_sum, positive_sum};

use crate::class_curves::Class;
use crate::classes::firsts_of_classes;
use dam_blocks::{Block, MOST_PERIODS, Problem, net_volume_of_block, value_in};
use dam_book::{BlockOrder, MOST_BLOCKS, Period};
use dam_curve::{Curve, CurveSum, Curves, Supply};
use std::alloc::{AllocError, Allocator};

/// The net volume of each block in the period at the place, in tenths of a MW.
fn net_volumes_in(blocks: &[Block], at: usize) -> [i32; MOST_BLOCKS]
    requires orders { (periods : ℕ) × AreBlocks periods blocks.now }
    requires few { length blocks.now ≤ most_blocks }
    requires place { at < last_period }
    ensures value { result ≡ at_places most_blocks (net_volume_of_block (at + 1)) blocks.now }
    ensures size { AreNumbersWithin greatest_volume result }
{
    let period = Period::at(at);
    let mut nets = [0; MOST_BLOCKS];
    for (place, block) in blocks.iter().enumerate() {
        nets[place] = net_volume_of_block(&block.order, period) as i32;
    }
    nets
}

/// The value of a block in the first `count` periods.
fn value_in_first(order: &BlockOrder, count: usize) -> i64
    requires { count ≤ last_period }
    ensures value { result ≡ over_periods (λ t. value_in t order.now) 1 count }
{
    let mut total = 0;
    for at in 0..count {
        total += value_in(order, Period::at(at));
    }
    total
}

/// The value of each block in the first `count` periods.
pub(crate) fn values_of(blocks: &[Block], count: usize) -> [i64; MOST_BLOCKS]
    requires few { length blocks.now ≤ most_blocks }
    requires count { count ≤ last_period }
    ensures { result
        ≡ at_places most_blocks (λ o. over_periods (λ t. value_in t o) 1 count) blocks.now }
{
    let mut values = [0; MOST_BLOCKS];
    for (place, block) in blocks.iter().enumerate() {
        values[place] = value_in_first(&block.order, count);
    }
    values
}

/// Starts the sum of a class over, for the net volumes that selections of blocks with these net volumes make. The error is
/// out of memory.
fn restart_sum<A: Allocator>(
    sum: &mut CurveSum<A>,
    nets: &[i32; MOST_BLOCKS],
) -> Result<(), AllocError>
    requires { AreNumbersWithin greatest_volume nets.now }
    ensures { OnOk result (IsCurve [] (negative_sum nets.now) (positive_sum nets.now) sum.new) }
{
    let mut least = 0;
    let mut most = 0;
    for net in nets {
        least += i64::from((*net).min(0));
        most += i64::from((*net).max(0));
    }
    sum.restart(least, most)
}

/// Adds the curve of the class with its first period at this place, over its hourly orders. The error is out of memory.
fn add_curve<A: Allocator, B: Allocator + Copy>(
    alloc: B,
    problem: &Problem<A>,
    firsts: &[u32; MOST_PERIODS],
    nets: &[i32; MOST_BLOCKS],
    first_place: usize,
    curves: &mut Curves<B>,
) -> Result<Curve, AllocError>
    requires firsts { AreFirsts problem.now firsts.now }
    requires nets { AreNumbersWithin greatest_volume nets.now }
    ensures curve { IfOk result (λ curve.
        IsCurveAt curves.new curve (class_orders problem.now first_place)
        (negative_sum nets.now) (positive_sum nets.now)) }
    ensures kept { Keeps curves.old curves.new }
{
    let mut sum = CurveSum::new(alloc);
    restart_sum(&mut sum, nets)?;
    // From the last period, since a contract of a sum has the period that was added last in front.
    let mut at = usize::from(problem.periods().get());
    while at > 0 {
        at -= 1;
        if firsts[at] as usize == first_place {
            let supply = Supply::of(alloc, problem.steps(Period::at(at)).unwrap())?;
            sum.add(&supply)?;
        }
    }
    curves.add(&sum)
}

/// Adds the curves of all classes, and returns the classes in the order of their first periods. The error is out of memory.
pub(crate) fn add_class_curves<A: Allocator, B: Allocator + Copy>(
    alloc: B,
    problem: &Problem<A>,
    curves: &mut Curves<B>,
) -> Result<Vec<Class, B>, AllocError>
    ensures { IfOk result (λ classes.
        AreClasses (without_rows problem.now) curves.new classes.items) }
{
    let blocks = problem.blocks();
    let count = usize::from(problem.periods().get());
    let firsts = firsts_of_classes(blocks, count);
    let mut classes = Vec::with_capacity(alloc, count)?;
    for at in 0..count {
        if firsts[at] as usize == at {
            let nets = net_volumes_in(blocks, at);
            let curve = add_curve(alloc, problem, &firsts, &nets, at, curves)?;
            classes.push(Class {
                first_place: at as u32,
                curve,
                nets,
            })?;
        }
    }
    Ok(classes)
}

//! Clearing the periods of the day under a selection.

ghost use Rattle.std.specs.Prelude.{◌≡◌, ◌-◌, pos, map, IfOk};
ghost use Rattle.dam_blocks.specs.Eligible.{IsEligible};
ghost use Rattle.dam_results.specs.inside.Cleared.{IsBalancedIn, IsCleared, AreCleared, volume_at};

use crate::published::PeriodResult;
use dam_blocks::{Problem, Selection, Solution, bought_volume, net_volume};
use dam_book::{Period, Price, laws};
use std::alloc::{AllocError, Allocator};

/// The clearing of a day under a selection: for each period, from the first on, its result, its price and the executed
/// volumes.
#[derive(Drop)]
pub(crate) struct Clearing<A: Allocator> {
    pub(crate) periods: Vec<PeriodResult, A>,
    pub(crate) prices: Vec<Price, A>,
    /// The executed volumes of the hourly orders in book order, in tenths of a MW.
    pub(crate) executions: Vec<Vec<u32, A>, A>,
}

impl<A: Allocator> Clearing<A> {
    /// The executed volume of the hourly order at a place of a period.
    pub(crate) fn executed(&self, period: Period, place: usize) -> Option<u32>
        ensures { result
            ≡ volume_at (map (λ v. v.items) self.now.executions.items) (period - 1) place }
    {
        let volumes = self.executions.get(usize::from(period.get()) - 1)?;
        volumes.get(place).copied()
    }
}

/// Clears a period, and gives the executed volumes of its hourly orders too.
fn clear_period<A: Allocator, B: Allocator>(
    alloc: A,
    problem: &Problem<B>,
    selection: Selection,
    period: Period,
) -> Result<(PeriodResult, Vec<u32, A>), AllocError>
    requires { IsBalancedIn problem.now selection period }
    ensures { IfOk result (λ r. IsCleared problem.now selection period r.0 r.1.items) }
{
    let hour = problem.hour(period).unwrap();
    let _few = hour.len(); // for the proof: a period has few orders
    let blocks = problem.blocks();
    let net = net_volume(blocks, selection, period);
    let Some((cleared, executed)) = hour.clear_and_execute(alloc, net)? else {
        unreachable!();
    };
    let result = PeriodResult {
        price: cleared.price,
        volume: cleared.bought + bought_volume(blocks, selection, period),
    };
    Ok((result, executed))
}

/// Clears every period of the day.
pub(crate) fn clear_day<A: Allocator + Copy, B: Allocator>(
    alloc: A,
    problem: &Problem<B>,
    best: Solution,
) -> Result<Clearing<A>, AllocError>
    requires { IsEligible problem.now best.selection (pos best.welfare) }
    ensures { IfOk result (λ c. AreCleared problem.now.blocks best.selection problem.now.hours
        c.periods.items c.prices.items (map (λ v. v.items) c.executions.items)) }
{
    laws::days_are_short();
    let count = usize::from(problem.periods().get());
    let mut periods = Vec::new(alloc);
    let mut prices = Vec::new(alloc);
    let mut executions = Vec::new(alloc);
    for place in 0..count {
        let period = Period::at(place);
        let (result, executed) = clear_period(alloc, problem, best.selection, period)?;
        prices.push(result.price)?;
        periods.push(result)?;
        executions.push(executed)?;
    }
    Ok(Clearing {
        periods,
        prices,
        executions,
    })
}

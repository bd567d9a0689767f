//! The results of the orders of the book.

ghost use Rattle.std.specs.Prelude.{◌<◌, ◌≤◌, map, length, IfOk};
ghost use Rattle.dam_book.specs.Limits.{last_period};
ghost use Rattle.dam_blocks.specs.Problem.{StandsAt};
ghost use Rattle.dam_results.specs.Published.{HasSurplus, IsRowResult, AreRowResults};
ghost use Rattle.dam_results.specs.inside.Cleared.{AreCleared};

use crate::clearing::Clearing;
use crate::published::RowResult;
use dam_blocks::{Place, Problem, ProblemRow, Selection, surplus};
use dam_book::Price;
use std::alloc::{AllocError, Allocator};

/// The surplus of the block at this place, at these prices of the periods, in cents per MWh times tenths of a MW.
fn block_surplus<B: Allocator>(problem: &Problem<B>, place: usize, prices: &[Price]) -> i64
    requires place { place < length problem.now.blocks }
    requires prices { length prices.now ≤ last_period }
    ensures { HasSurplus problem.now.blocks prices.now place result }
{
    surplus(problem.block(place).unwrap(), prices)
}

/// The result of an order.
fn row_result<A: Allocator, B: Allocator>(
    problem: &Problem<B>,
    selection: Selection,
    clearing: &Clearing<A>,
    row: &ProblemRow,
) -> RowResult
    requires place { StandsAt problem.now row.now row.now.at }
    requires cleared { AreCleared problem.now.blocks selection problem.now.hours
        clearing.now.periods.items clearing.now.prices.items
        (map (λ v. v.items) clearing.now.executions.items) }
    ensures { IsRowResult problem.now selection clearing.now.prices.items row.now result }
{
    let _limits = problem.periods(); // for the proof: the day's number of periods
    let (who, name) = (row.who.copy(), row.name.copy());
    match row.at {
        Place::Hour(period, place) => {
            let Some(executed) = clearing.executed(period, place) else {
                unreachable!();
            };
            RowResult::Hour {
                who,
                name,
                executed,
            }
        }
        Place::Block(place) => RowResult::Block {
            who,
            name,
            accepted: selection.has(place),
            surplus: block_surplus(problem, place, &clearing.prices),
        },
    }
}

/// The result of each order, in book order.
pub(crate) fn row_results<A: Allocator + Copy, B: Allocator>(
    alloc: A,
    problem: &Problem<B>,
    selection: Selection,
    clearing: &Clearing<A>,
) -> Result<Vec<RowResult, A>, AllocError>
    requires { AreCleared problem.now.blocks selection problem.now.hours
        clearing.now.periods.items clearing.now.prices.items
        (map (λ v. v.items) clearing.now.executions.items) }
    ensures { IfOk result (λ rows.
        AreRowResults problem.now selection clearing.now.prices.items problem.now.rows rows.items) }
{
    let rows = problem.rows();
    let mut results = Vec::with_capacity(alloc, rows.len())?;
    for row in rows {
        results.push(row_result(problem, selection, clearing, row))?;
    }
    Ok(results)
}

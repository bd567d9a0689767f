//! The step from a selection of blocks to its published results.

ghost use Rattle.std.specs.Prelude.{pos, IfOk};
ghost use Rattle.dam_blocks.specs.Eligible.{IsEligible};
ghost use Rattle.dam_results.specs.Published.{ArePublished};

use crate::clearing::clear_day;
use crate::published::Results;
use crate::row_results::row_results;
use dam_blocks::{Problem, Solution};
use std::alloc::{AllocError, Allocator};

/// The published results of an eligible selection: the price of each period at which it clears, with the
/// volume that is bought there, and the result of each order.
///
/// The caller's condition is that `score` answers `Eligible` with that welfare. An `Err` means that memory
/// ran out.
pub fn results<A: Allocator + Copy, B: Allocator>(
    alloc: A,
    problem: &Problem<B>,
    best: Solution,
) -> Result<Results<A>, AllocError>
    requires { IsEligible problem.now best.selection (pos best.welfare) }
    ensures { IfOk result (λ r.
        ArePublished problem.now best.selection r.welfare r.periods.items r.rows.items) }
{
    let Solution { selection, welfare } = best;
    let clearing = clear_day(alloc, problem, best)?;
    let rows = row_results(alloc, problem, selection, &clearing)?;
    Ok(Results {
        welfare,
        periods: clearing.periods,
        rows,
    })
}

//! From the text of a journal, or from a book, to its published results.
ghost use Rattle.std.specs.Prelude.{IfOk};
ghost use Rattle.dam_results.specs.Clearing.{IsClearing};
ghost use Rattle.dam_example.specs.Clearing.{IsClearingOf};

use anyhow::{Context, Result};
use dam_blocks::Problem;
use dam_book::{Book, Seed};
use dam_results::publishing_laws::published_results_are_clearings;
use dam_results::{Results, results, run_of_text};
use dam_search::{FreeTurn, MOST_NODES, Plan, search};
use std::alloc::Global;
use std::thread::Threads;

/// Reads a journal, runs its commands, and clears the book that they close.
pub fn clear_text<R: Threads + Sync>(rt: &R, alloc: Global, text: &[u8]) -> Result<Results>
    ensures { IfOk result (λ r. IsClearingOf text.now r.welfare r.periods.items r.rows.items) }
{
    let run = run_of_text(alloc, Seed::fixed(), text)?;
    clear(rt, alloc, &run.book)
}

/// Finds the best selection of the blocks of a closed book, and its published results.
pub fn clear<R: Threads + Sync>(rt: &R, alloc: Global, book: &Book) -> Result<Results>
    ensures { IfOk result (λ r. IsClearing book.now r.welfare r.periods.items r.rows.items) }
{
    published_results_are_clearings();
    let problem = Problem::of_book(alloc, book)?;
    let plan = Plan::new(2, 3, MOST_NODES).context("a plan")?;
    let best = search(rt, alloc, &problem, plan, &FreeTurn)?;
    Ok(results(alloc, &problem, best)?)
}

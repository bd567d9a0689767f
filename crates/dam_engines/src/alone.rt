//! The engine of `dam clear` from text to text, on the calling thread alone.

ghost use Rattle.std.specs.Prelude.{◌≡◌, ◌↔◌, false, IfOk, IfErr, IsErrOf};
ghost use Rattle.dam_results.specs.Journal.{IsMadeFrom};
ghost use Rattle.dam_engines.specs.Engine.{IsRunFault};
ghost use Rattle.dam_engines.specs.Clear.{AreResultsWithin, IsBookFault, IsClearFault, IsClearedWithin};
ghost use Rattle.dam_engines.specs.Clear.{terms_alone};

use crate::fault::RunFault;
use dam_blocks::Problem;
use dam_book::{Book, Seed};
use dam_results::publishing_laws::published_results_are_clearings;
use dam_results::{results, results_text, run_of_text};
use dam_search::{NodeCount, search_alone};
use std::alloc::Global;

/// The results text of a closed book, found on the calling thread alone. The answer to an open one is `StillOpen`, before
/// any memory is asked for.
fn clear_book_alone(alloc: Global, book: &Book, node_limit: NodeCount) -> Result<Vec<u8>, RunFault>
    ensures done { IfOk result (λ results.
        IsClearedWithin (terms_alone node_limit) book.now results.items) }
    ensures fault { IfErr result (IsBookFault (terms_alone node_limit) book.now) }
    ensures still_open { IsErrOf result RunFault.StillOpen ↔ (book.now.closed ≡ false) }
{
    published_results_are_clearings();
    let problem = Problem::of_book(alloc, book)?;
    let best = search_alone(alloc, &problem, node_limit)?;
    let published = results(alloc, &problem, best)?;
    Ok(results_text(alloc, &published)?)
}

/// The results text of a journal's text, as `run_clear` prints it, found on the calling thread alone.
///
/// It doesn't start a thread, and it reads and writes only memory. The search visits at most `node_limit` nodes. Before the
/// nodes, a first selection is looked for, which isn't counted. The limit may be any number: with 0, a search never
/// finishes; with `MOST_NODES` or more, it always does. The book hashes names with the seed.
pub fn clear_journal_alone(
    alloc: Global,
    seed: Seed,
    text: &[u8],
    node_limit: NodeCount,
) -> Result<Vec<u8>, RunFault>
    ensures done { IfOk result (λ results.
        IsMadeFrom (AreResultsWithin (terms_alone node_limit)) text.now results.items) }
    ensures fault { IfErr result (IsRunFault (IsClearFault (terms_alone node_limit)) text.now) }
{
    let run = run_of_text(alloc, seed, text)?;
    clear_book_alone(alloc, &run.book, node_limit)
}

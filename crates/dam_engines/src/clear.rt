//! The engine of `dam clear`, from a reader to a writer.

ghost use Rattle.std.specs.Prelude.{◌≡◌, ◌≤◌, ◌+◌, ◌-◌, ◌↔◌, ℕ, List, false, IfOk, IfErr, IfSome, IsErrOf};
ghost use Rattle.dam_book.specs.Book.{run};
ghost use Rattle.dam_book.specs.declared.command.Command.{Command};
ghost use Rattle.dam_results.specs.Journal.{IsMadeFrom, ReadsAs};
ghost use Rattle.dam_results.specs.Run.{HasRefused};
ghost use Rattle.dam_engines.specs.Device.{AreDevicesAfter, most_asked};
ghost use Rattle.dam_engines.specs.Engine.{Ends, IsRunFault, IsTextFault};
ghost use Rattle.dam_engines.specs.Clear.{AreResultsWithin, IsBookFault, IsClearFault, IsClearedWithin};
ghost use Rattle.dam_engines.specs.inside.Watch.{MayHearOf, piece_count};

use crate::fault::RunFault;
use crate::input::read_input;
use crate::output::write_text;
use crate::watch::{Listener, Watch, WatchOfCaller};
use dam_blocks::Problem;
use dam_book::{Book, Seed};
use dam_device::{Sink, Source};
use dam_results::publishing_laws::published_results_are_clearings;
use dam_results::{Run, results, results_text, run_of_text};
use dam_search::{Plan, search};
use std::alloc::Global;
use std::io::{Read, Write};
use std::thread::Threads;

/// Reads a journal, runs its commands on the empty book of its day, clears the book that they close,
/// and writes the results: the price and volume of each period, and the result of each order.
///
/// The whole text is made before its first byte is written. If the input is longer than a journal may be, not all of it
/// is read. `StillOpen` comes only if the book is open after the last command. The plan doesn't change the results, but
/// by its limit on nodes the search may end `Unfinished`. The book hashes names by the seed.
///
/// Neither device may have failed before. The contract doesn't state the bytes of a reader or a writer that doesn't
/// show them, nor the printed text if the reader doesn't: standard input and output show none.
pub fn run_clear<H: Threads + Sync, R: Read, W: Write, T: Watch + Sync>(
    rt: &H,
    alloc: Global,
    seed: Seed,
    reader: &mut Source<R>,
    writer: &mut Sink<W>,
    plan: Plan,
    watch: &T,
) -> Result<(), RunFault>
    requires reads { reader.old.failed ≡ false }
    requires writes { writer.old.failed ≡ false }
    ensures ends { IfSome reader.old.unread (λ given.
        Ends (IsMadeFrom (AreResultsWithin plan) given) (IsRunFault (IsClearFault plan) given)
        writer.old.taken writer.new.taken (writer.new.asked - writer.old.asked) result) }
    ensures devices { AreDevicesAfter reader.old reader.new writer.old writer.new result }
    ensures asked { reader.new.asked ≤ reader.old.asked + most_asked reader.old.unread }
{
    let text = read_input(alloc, reader)?;
    let results = clear_journal(rt, alloc, seed, text, plan, &WatchOfCaller(watch))?;
    write_text(writer, results.as_slice())
}

/// The results text of the book of a journal's text. The text is freed before the search.
fn clear_journal<H: Threads + Sync, T: Listener + Sync>(
    rt: &H,
    alloc: Global,
    seed: Seed,
    text: Vec<u8>,
    plan: Plan,
    watch: &T,
) -> Result<Vec<u8>, RunFault>
    requires watched { MayHearOf (T.may_hear_refused watch.now) (T.may_hear_pieces watch.now) plan
        (ReadsAs text.items) }
    ensures done { IfOk result (λ results.
        IsMadeFrom (AreResultsWithin plan) text.items results.items) }
    ensures fault { IfErr result (IsRunFault (IsClearFault plan) text.items) }
{
    let run = run_of_journal(alloc, seed, text.as_slice())?;
    drop(text);
    watch.on_commands_refused(run.refused);
    clear_book(rt, alloc, &run.book, plan, watch)
}

/// Runs the journal of a text. A text that is too long may have been cut after the first byte too many.
fn run_of_journal(alloc: Global, seed: Seed, text: &[u8]) -> Result<Run, RunFault>
    ensures done { IfOk result (λ found. (periods : ℕ) × (commands : List Command)
        × ReadsAs text.now periods commands × (found.book ≡ run periods commands)
        × HasRefused periods commands found.refused) }
    ensures fault { IfErr result (IsTextFault text.now) }
{
    Ok(run_of_text(alloc, seed, text)?)
}

/// The results text of a closed book. The answer to an open one is `StillOpen`, before any memory is asked for.
pub(crate) fn clear_book<H: Threads + Sync, T: Listener + Sync>(
    rt: &H,
    alloc: Global,
    book: &Book,
    plan: Plan,
    watch: &T,
) -> Result<Vec<u8>, RunFault>
    requires watched { T.may_hear_pieces watch.now (piece_count plan book.now) }
    ensures done { IfOk result (λ results. IsClearedWithin plan book.now results.items) }
    ensures fault { IfErr result (IsBookFault plan book.now) }
    ensures still_open { IsErrOf result RunFault.StillOpen ↔ (book.now.closed ≡ false) }
{
    published_results_are_clearings();
    let problem = Problem::of_book(alloc, book)?;
    watch.on_search_begin(1 << plan.depth(problem.block_count()));
    let best = search(rt, alloc, &problem, plan, watch);
    watch.on_search_end();
    let published = results(alloc, &problem, best?)?;
    Ok(results_text(alloc, &published)?)
}

//! The engine of `dam day`, from a reader to a writer.

ghost use Rattle.std.specs.Prelude.{◌≡◌, ◌≤◌, ◌+◌, ◌-◌, ℕ, List, false, IfOk, IfErr, IfSome, OnOk};
ghost use Rattle.dam_gate.specs.Day.{AreTaken, IsDayRun};
ghost use Rattle.dam_gate.specs.Journal.{IsJournal};
ghost use Rattle.dam_plan.specs.Plan.{PlanTerms};
ghost use Rattle.dam_results.specs.Journal.{IsMadeFrom};
ghost use Rattle.dam_engines.specs.Device.{AreDevicesAfter, most_asked};
ghost use Rattle.dam_engines.specs.Engine.{Ends, IsRunFault};
ghost use Rattle.dam_engines.specs.Clear.{IsBookFault, IsClearedWithin};
ghost use Rattle.dam_engines.specs.Day.{IsCommandsFault, IsDayText, with_results};
ghost use Rattle.dam_engines.specs.inside.Watch.{piece_count};

use crate::clear::clear_book;
use crate::fault::RunFault;
use crate::input::read_input;
use crate::output::write_text;
use crate::watch::{Listener, Watch, WatchOfCaller};
use dam_book::{DayLength, PackedCommand, Seed};
use dam_device::{Sink, Source};
use dam_gate::{DayFault, Journal, Settled, run_packed};
use dam_results::{journal_text, read_journal};
use dam_search::{Plan, Turnstile};
use std::alloc::Global;
use std::io::{Read, Write};
use std::sync::Wait;
use std::thread::Threads;

/// The plan of a day's search, with the callbacks of a run. They don't change its answers.
#[derive(Drop)]
pub struct DayPlan<'a, T: Watch, U: Turnstile> {
    pub search: Plan,
    /// It watches the search.
    pub watch: &'a T,
    /// The turnstile of the participants' threads, whose jobs are the participants, numbered from 0 by first occurrence.
    pub entrance: &'a U,
}

/// Reads a journal without a close, has each of its participants enter its commands at one gate, in
/// their order and on a thread of its own if one can be started, closes and clears the book, and
/// writes the journal of that day, the line `results`, and the results.
///
/// Commands of two participants may come to the gate in either order, so two runs may write two texts; the results
/// always belong to the journal that is written. The plan doesn't change the results, but by its limit on nodes the
/// search may end `Unfinished`. The gate's book hashes names by the seed.
///
/// The whole text is made before its first byte is written. The rules of `run_clear` for readers, writers and inputs
/// that are too long hold here too.
pub fn run_day<H: Threads + Wait + Sync, R: Read, W: Write, T: Watch + Sync, U: Turnstile + Sync>(
    rt: &H,
    alloc: Global,
    seed: Seed,
    reader: &mut Source<R>,
    writer: &mut Sink<W>,
    plan: &DayPlan<'_, T, U>,
) -> Result<(), RunFault>
    requires reads { reader.old.failed ≡ false }
    requires writes { writer.old.failed ≡ false }
    ensures ends { IfSome reader.old.unread (λ given.
        Ends (IsMadeFrom (IsDayText plan.now.search) given)
        (IsRunFault (IsCommandsFault plan.now.search) given) writer.old.taken writer.new.taken
        (writer.new.asked - writer.old.asked) result) }
    ensures devices { AreDevicesAfter reader.old reader.new writer.old writer.new result }
    ensures asked { reader.new.asked ≤ reader.old.asked + most_asked reader.old.unread }
{
    let text = read_input(alloc, reader)?;
    let day = run_day_of_text(rt, alloc, seed, text, plan)?;
    write_text(writer, day.as_slice())
}

/// The printed text of a day of the commands of a journal's text. The journal's text is freed before they are entered.
fn run_day_of_text<H: Threads + Wait + Sync, T: Watch + Sync, U: Turnstile + Sync>(
    rt: &H,
    alloc: Global,
    seed: Seed,
    text: Vec<u8>,
    plan: &DayPlan<'_, T, U>,
) -> Result<Vec<u8>, RunFault>
    ensures done { IfOk result (λ day.
        IsMadeFrom (IsDayText plan.now.search) text.items day.items) }
    ensures fault { IfErr result (IsRunFault (IsCommandsFault plan.now.search) text.items) }
{
    let journal = read_journal(alloc, text.as_slice())?;
    drop(text);
    let commands = journal.commands.as_slice();
    run_day_of_commands(rt, alloc, seed, journal.periods, commands, plan)
}

/// Runs a day of the commands at a gate, clears its book, and returns the text to print.
fn run_day_of_commands<H: Threads + Wait + Sync, T: Watch + Sync, U: Turnstile + Sync>(
    rt: &H,
    alloc: Global,
    seed: Seed,
    periods: DayLength,
    commands: &[PackedCommand],
    plan: &DayPlan<'_, T, U>,
) -> Result<Vec<u8>, RunFault>
    ensures done { IfOk result (λ day. IsDayText plan.now.search periods commands.now day.items) }
    ensures fault { IfErr result (IsCommandsFault plan.now.search periods commands.now) }
{
    let settled = enter_and_settle(rt, alloc, seed, periods, commands, plan.entrance)?;
    let watch = WatchOfCaller(plan.watch);
    clear_to_day_text(rt, alloc, settled.journal(), plan.search, &watch)
}

/// Runs a day of the commands at a gate. A command's place is counted from 0, a record's number
/// from 1, and the first record is the day.
fn enter_and_settle<H: Threads + Wait + Sync, U: Turnstile + Sync>(
    rt: &H,
    alloc: Global,
    seed: Seed,
    periods: DayLength,
    commands: &[PackedCommand],
    entrance: &U,
) -> Result<Settled, RunFault>
    ensures periods { IfOk result (λ settled. settled.book.periods ≡ periods) }
    ensures journal { IfOk result IsJournal }
    ensures day { IfOk result (λ settled. IsDayRun periods commands.now settled.entries) }
    ensures taken { OnOk result (AreTaken commands.now) }
    ensures fault { (plan : PlanTerms)
        → IfErr result (IsCommandsFault plan periods commands.now) }
{
    match run_packed(rt, alloc, periods, seed, commands, entrance) {
        Ok(day) => Ok(day.settled),
        Err(DayFault::TooManyCommands) => Err(RunFault::TooManyCommands),
        Err(DayFault::CloseGiven(place)) => Err(RunFault::CloseGiven(place + 2)),
        Err(DayFault::TooManyParticipants(place)) => Err(RunFault::TooManyParticipants(place + 2)),
        Err(DayFault::Memory) => Err(RunFault::Memory),
        Err(DayFault::NotSettled(why)) => Err(RunFault::Mismatch(why)),
    }
}

/// Clears the journal's book, and returns the written journal, the line `results`, and the results text.
fn clear_to_day_text<H: Threads + Sync, T: Listener + Sync>(
    rt: &H,
    alloc: Global,
    journal: &Journal,
    plan: Plan,
    watch: &T,
) -> Result<Vec<u8>, RunFault>
    requires watched { T.may_hear_pieces watch.now (piece_count plan journal.now.book) }
    ensures done { IfOk result (λ text. (results : List ℕ)
        × IsClearedWithin plan journal.now.book results
        × (text.items ≡ with_results journal.now.book.periods journal.now.entries results)) }
    ensures fault { IfErr result (IsBookFault plan journal.now.book) }
{
    let results = clear_book(rt, alloc, journal.book(), plan, watch)?;
    let mut text = journal_text(alloc, journal.periods(), journal.entries())?;
    text.extend_from_slice(b"results\n")?;
    text.extend_from_slice(results.as_slice())?;
    Ok(text)
}

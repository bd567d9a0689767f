//! A journal read and written, each again if memory was refused to it.
ghost use Rattle.std.specs.Prelude.{◌≤◌, length};
ghost use Rattle.dam_book.specs.Limits.{most_entries};

use crate::answer::{Answer, Stop, TRIES, Told};
use dam_book::{DayLength, PackedCommand, PackedEntry, Seed};
use dam_engines::RunFault;
use dam_gate::Keeper;
use dam_results::{JournalFault, JournalRead, journal_text, read_journal};
use std::alloc::Global;

/// A keeper that has taken the journal's commands.
pub fn keeper_of(alloc: Global, read: &JournalRead) -> Result<Keeper, Stop> {
    let mut keeper = Keeper::for_day(alloc, read.periods, Seed::fixed())?;
    for command in &read.commands {
        keeper.apply(command.command())?;
    }
    Ok(keeper)
}

/// Whether these are the same commands.
fn are_same_commands(commands: &[PackedCommand], others: &[PackedCommand]) -> bool {
    commands.len() == others.len()
        && commands
            .iter()
            .zip(others.iter())
            .all(|(command, other)| command.equals(other))
}

/// Whether two answers to one text are equal.
fn are_equal(
    found: &Result<JournalRead, JournalFault>,
    other: &Result<JournalRead, JournalFault>,
) -> bool {
    match (found, other) {
        (Ok(found), Ok(other)) => {
            found.periods == other.periods && are_same_commands(&found.commands, &other.commands)
        }
        (Err(found), Err(other)) => *found == *other,
        _ => false,
    }
}

/// The answer to the reading of a text.
fn answer_of(read: &Result<JournalRead, JournalFault>) -> Answer {
    match read {
        Ok(journal) => Answer::Commands(journal.commands.len()),
        Err(fault) => Answer::Fault(RunFault::from(*fault)),
    }
}

/// Reads the text, and then again, until the answer isn't that memory ran out: the two have to be equal.
pub fn read_again(alloc: Global, text: &[u8]) -> Result<Told, Stop> {
    let wanted = read_journal(alloc, text);
    if wanted.as_ref().err() == Some(&JournalFault::Memory) {
        return Err(Stop::Memory);
    }
    for refused in 0..TRIES {
        let found = read_journal(alloc, text);
        if found.as_ref().err() != Some(&JournalFault::Memory) {
            let answer = answer_of(&found);
            return if are_equal(&found, &wanted) {
                Ok(Told { answer, refused })
            } else {
                Err(Stop::Wrong)
            };
        }
    }
    Err(Stop::Wrong)
}

/// Writes the journal of these entries until memory isn't refused: it has to be this text.
fn write_again(
    alloc: Global,
    periods: DayLength,
    entries: &[PackedEntry],
    wanted: &[u8],
) -> Result<Told, Stop>
    requires { length entries.now ≤ most_entries }
{
    for refused in 0..TRIES {
        if let Ok(written) = journal_text(alloc, periods, entries) {
            let answer = Answer::Entries(entries.len());
            return if written.as_slice() == wanted {
                Ok(Told { answer, refused })
            } else {
                Err(Stop::Wrong)
            };
        }
    }
    Err(Stop::Wrong)
}

/// Reads the text, which has to be a written journal, and writes the journal of a keeper that takes its commands.
pub fn write_journal(alloc: Global, text: &[u8]) -> Result<Told, Stop> {
    let read = read_journal(alloc, text)?;
    let keeper = keeper_of(alloc, &read)?;
    write_again(alloc, read.periods, keeper.entries(), text)
}

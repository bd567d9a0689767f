//! The meaning of a line of the input. It is read as a journal, after the record of the day, if there is one.
ghost use Rattle.std.specs.Prelude.{◌≡◌, ◌≤◌, ◌++◌, ◌∷◌, [], ℕ, List, Option, None, Some, true, length, IfSome, IfOk, MatchOption};
ghost use Rattle.dam_book.specs.Book.{is_day};
ghost use Rattle.dam_results.specs.Journal.{ReadsAs};
ghost use Rattle.dam_desk.specs.Limits.{most_line};
ghost use Rattle.dam_desk.specs.InputLines.{IsSameFault, IsMeaning, record_of, text_after, kept_bytes};

use crate::fault::InputLineFault;
use crate::limits::MOST_LINE;
use dam_book::{DayLength, PackedCommand};
use dam_results::laws::{fault_is_no_journal, text_is_one_journal};
use dam_results::{JournalFault, JournalRead, read_journal};
use std::alloc::{AllocError, Global};

/// The meaning of a line.
#[derive(Debug, Drop)]
pub(crate) enum Meaning {
    /// It is the record of a day of this length.
    Day(DayLength),
    /// It is the record of this command.
    Command(PackedCommand),
    /// It is no record.
    Fault(InputLineFault),
}

/// The fault of a line, from the fault of the journal that is read in its place: the line begins after `before` bytes.
fn input_line_fault(before: usize, fault: JournalFault) -> Result<InputLineFault, AllocError>
    ensures { IfOk result (IsSameFault before fault) }
{
    match fault {
        JournalFault::TooLong => Ok(InputLineFault::TooLong),
        JournalFault::NotAscii(at) => Ok(InputLineFault::NotAscii(at.saturating_sub(before))),
        JournalFault::TooManyRecords => Ok(InputLineFault::NotOneRecord),
        JournalFault::NotDay => Ok(InputLineFault::NotDay),
        JournalFault::FieldCount(_) => Ok(InputLineFault::FieldCount),
        JournalFault::BadField { field, .. } => Ok(InputLineFault::BadField(field)),
        JournalFault::Memory => Err(AllocError),
    }
}

/// The length of the day, if the text is the record of a day and nothing else.
fn read_day(alloc: Global, text: &[u8]) -> Result<Option<DayLength>, AllocError>
    ensures { IfOk result (λ day. MatchOption day
        ((periods : ℕ) → ¬ (ReadsAs text.now periods []))
        (λ periods. ReadsAs text.now periods [])) }
{
    text_is_one_journal();
    fault_is_no_journal();
    match read_journal(alloc, text) {
        Ok(journal) if journal.commands.is_empty() => Ok(Some(journal.periods)),
        Ok(_) => Ok(None),
        Err(JournalFault::Memory) => Err(AllocError),
        Err(_) => Ok(None),
    }
}

/// The command of a journal, if it has just one.
fn only_command(journal: JournalRead) -> Option<PackedCommand>
    ensures { MatchOption result
        (¬ (length journal.commands.items ≡ 1))
        (λ command. journal.commands.items ≡ command ∷ []) }
{
    let mut commands = journal.commands;
    if commands.len() != 1 {
        return None;
    }
    commands.pop()
}

/// The meaning of the line that follows the first `before` bytes of the text: these are the record of the day, or none.
fn meaning_of_text(alloc: Global, text: &[u8], before: usize) -> Result<Meaning, AllocError>
    requires { before ≤ length text.now }
    ensures { (day : Option ℕ) (line : List ℕ)
        → IfSome day (λ periods. is_day periods ≡ true)
        → text.now ≡ text_after day line → before ≡ length (record_of day)
        → length line ≤ most_line → IfOk result (IsMeaning day line) }
{
    // A command is the usual line. After the record of the day, a day isn't read as one.
    let fault = match read_journal(alloc, text) {
        Ok(_) if before == 0 => InputLineFault::NotOneRecord,
        Ok(journal) => match only_command(journal) {
            Some(command) => return Ok(Meaning::Command(command)),
            None => InputLineFault::NotOneRecord,
        },
        Err(fault) => input_line_fault(before, fault)?,
    };
    match read_day(alloc, &text[before..])? {
        Some(periods) => Ok(Meaning::Day(periods)),
        None => Ok(Meaning::Fault(fault)),
    }
}

/// The text in which a line is read: the record of the day, then the line and its line feed.
fn day_and_line_text(alloc: Global, day_record: &[u8], line: &[u8]) -> Result<Vec<u8>, AllocError>
    ensures { IfOk result (λ text. text.items ≡ day_record.now ++ (line.now ++ 10 ∷ [])) }
{
    let mut text = Vec::with_capacity(alloc, day_record.len() + line.len() + 1)?;
    text.extend_from_slice(day_record)?;
    text.extend_from_slice(line)?;
    text.extend_from_slice(b"\n")?;
    Ok(text)
}

/// The meaning of a line after the record of the day, which has no bytes if there is no day yet. Of a line that is too
/// long, `line` has the first `MOST_LINE + 1` bytes.
pub(crate) fn meaning_of_input_line(
    alloc: Global,
    day_record: &[u8],
    line: &[u8],
) -> Result<Meaning, AllocError>
    ensures { (day : Option ℕ) (text : List ℕ)
        → IfSome day (λ periods. is_day periods ≡ true)
        → day_record.now ≡ record_of day → line.now ≡ kept_bytes text
        → IfOk result (IsMeaning day text) }
{
    if line.len() > MOST_LINE {
        return Ok(Meaning::Fault(InputLineFault::TooLong));
    }
    let text = day_and_line_text(alloc, day_record, line)?;
    meaning_of_text(alloc, text.as_slice(), day_record.len())
}

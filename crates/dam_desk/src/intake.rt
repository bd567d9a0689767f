//! The intake of a desk: it enters the lines that come, answers them, and makes the batch of the records that they enter.
ghost use Rattle.std.specs.Prelude.{◌≡◌, ◌≤◌, ◌++◌, ◌∷◌, [], List, ℕ, Option, None, Some, true, false, length, IfOk, OnOk};
ghost use Rattle.dam_book.specs.Book.{commands_of};
ghost use Rattle.dam_book.specs.Limits.{most_entries};
ghost use Rattle.dam_results.specs.Written.{written};
ghost use Rattle.dam_store.specs.FileLines.{has_byte, text_of};
ghost use Rattle.dam_desk.specs.Answers.{fault_answer};
ghost use Rattle.dam_desk.specs.DeskJournal.{JournalContent, DeskState, next};
ghost use Rattle.dam_desk.specs.InputLines.{IsMeaning, kept_bytes};
ghost use Rattle.dam_desk.specs.declared.meaning.Meaning.TheVariants.{Day as Days, Command as Commands, Fault};
ghost use Rattle.dam_desk.specs.inside.DeskDay.{entered_of};
ghost use Rattle.dam_desk.specs.inside.TextLines.{is_ended};

use crate::desk_day::DeskDay;
use crate::fault::InputLineFault;
use crate::fault_answer::append_fault_answer;
use crate::input_line::InputLine;
use crate::meaning::{Meaning, meaning_of_input_line};
use crate::text_lines::split_first_line;
use dam_book::laws::runs_grow;
use dam_book::{Command, DayLength, PackedEntry, Seed};
use dam_store::{Batch, BatchFault};
use std::alloc::{AllocError, Global};

/// The day that a desk has, the line that has begun, and the batch.
#[derive(Drop)]
pub(crate) struct Intake {
    pub(crate) alloc: Global,
    seed: Seed,
    day: Option<DeskDay>,
    pub(crate) line: InputLine,
    /// The number of lines that were answered.
    pub(crate) answered: u64,
    /// Whether the day begins in this batch.
    begins: bool,
    /// The entries of this batch.
    entries: Vec<PackedEntry>,
    /// The answers to the lines of this batch.
    pub(crate) answers: Vec<u8>,
    ghost few: { length entries.items ≤ entered_of day },
    ghost room: { entered_of day ≤ most_entries },
}

impl Intake {
    ghost use Rattle.dam_desk.specs.inside.Intake.{Answered, HasRead, IsAt, IsIn, TakesLine, entered_text, periods_of, records_text};

    /// An intake before its first line.
    pub(crate) fn new(alloc: Global, seed: Seed, day: Option<DeskDay>) -> Intake
        requires { entered_of day ≤ most_entries }
        ensures day { result.day ≡ day }
        ensures line { result.line ≡ [] }
        ensures answered { result.answered ≡ 0 }
    {
        Intake {
            alloc,
            seed,
            day,
            line: InputLine::new(alloc),
            answered: 0,
            begins: false,
            entries: Vec::new(alloc),
            answers: Vec::new(alloc),
        }
    }

    /// Begins a batch: enters the records of the lines that end in the bytes, and makes the answers to these lines.
    pub(crate) fn enter_batch(&mut self, bytes: &[u8]) -> Result<(), AllocError>
        ensures { (state : DeskState) (begun : List ℕ) → IsIn self.old state begun
            → OnOk result (HasRead self.new state (begun ++ bytes.now) []) }
    {
        self.begins = false;
        self.entries.clear();
        self.answers.clear();
        self.enter_lines(bytes)
    }

    /// Enters the lines that end in the bytes, with the answers to them, and begins the next line with the rest.
    fn enter_lines(&mut self, bytes: &[u8]) -> Result<(), AllocError>
        ensures { (state : DeskState) (given : List ℕ) → HasRead self.old state given bytes.now
            → OnOk result (HasRead self.new state given []) }
    {
        let mut rest = bytes;
        while let Some((line, after)) = split_first_line(rest) {
            self.finish_line(line)?;
            rest = after;
        }
        self.line.extend(rest)
    }

    /// Answers the line that ends with these bytes.
    fn finish_line(&mut self, piece: &[u8]) -> Result<(), AllocError>
        ensures { (state : DeskState) (given after : List ℕ) → has_byte 10 piece.now ≡ false
            → HasRead self.old state given (piece.now ++ 10 ∷ after)
            → OnOk result (HasRead self.new state given after) }
    {
        self.line.extend(piece)?;
        self.enter_line()?;
        self.line.clear();
        Ok(())
    }

    /// Enters the record of the line that has come, if it is one, and adds the answer to it.
    fn enter_line(&mut self) -> Result<(), AllocError>
        ensures line { self.new.line ≡ self.old.line }
        ensures answered { OnOk result (self.new.answered ≡ next self.old.answered) }
        ensures step { (before : List ℕ) (journal : Option JournalContent) (text : List ℕ)
            → IsAt self.old before journal → self.old.line ≡ kept_bytes text
            → OnOk result (TakesLine self.old self.new before journal text) }
    {
        self.answered = self.answered.saturating_add(1);
        let meaning = self.meaning_of_line()?;
        self.enter_and_answer(meaning)
    }

    /// The meaning of the line that has come.
    fn meaning_of_line(&self) -> Result<Meaning, AllocError>
        ensures { (text : List ℕ) → self.now.line ≡ kept_bytes text
            → IfOk result (IsMeaning (periods_of self.now.day) text) }
    {
        let day_record: &[u8] = match &self.day {
            Some(day) => day.day_record(),
            None => &[],
        };
        meaning_of_input_line(self.alloc, day_record, self.line.bytes())
    }

    /// Enters the record, if the line that has come is one, and adds the answer to it.
    fn enter_and_answer(&mut self, meaning: Meaning) -> Result<(), AllocError>
        ensures line { self.new.line ≡ self.old.line }
        ensures answered { self.new.answered ≡ self.old.answered }
        ensures step { (before : List ℕ) (journal : Option JournalContent)
            → IsAt self.old before journal
            → OnOk result (Answered self.old self.new before journal meaning) }
    {
        match meaning {
            Meaning::Fault(fault) => self.append_fault(fault),
            Meaning::Day(periods) => self.enter_day(periods),
            Meaning::Command(command) => self.enter_command(&command.command()),
        }
    }

    /// Adds the answer to a line with a fault.
    fn append_fault(&mut self, fault: InputLineFault) -> Result<(), AllocError>
        ensures line { self.new.line ≡ self.old.line }
        ensures answered { self.new.answered ≡ self.old.answered }
        ensures day { self.new.day ≡ self.old.day }
        ensures begins { self.new.begins ≡ self.old.begins }
        ensures entries { self.new.entries.items ≡ self.old.entries.items }
        ensures text { OnOk result (self.new.answers.items
            ≡ self.old.answers.items ++ fault_answer self.old.answered fault) }
    {
        append_fault_answer(self.alloc, &mut self.answers, self.answered, fault)
    }

    /// Answers the record of a day: it begins the day, or is the same day again.
    fn enter_day(&mut self, periods: DayLength) -> Result<(), AllocError>
        ensures line { self.new.line ≡ self.old.line }
        ensures answered { self.new.answered ≡ self.old.answered }
        ensures step { (before : List ℕ) (journal : Option JournalContent)
            → IsAt self.old before journal
            → OnOk result (Answered self.old self.new before journal (Days periods)) }
    {
        let Some(day) = &self.day else {
            return self.begin_day(periods);
        };
        if day.periods() != periods {
            return self.append_fault(InputLineFault::OtherDay);
        }
        self.answers.extend_from_slice(day.day_answer())
    }

    /// Begins the day, and adds its line to the answers.
    fn begin_day(&mut self, periods: DayLength) -> Result<(), AllocError>
        requires { self.old.day ≡ None }
        ensures line { self.new.line ≡ self.old.line }
        ensures answered { self.new.answered ≡ self.old.answered }
        ensures step { (before : List ℕ) (journal : Option JournalContent)
            → IsAt self.old before journal
            → OnOk result (Answered self.old self.new before journal (Days periods)) }
    {
        let day = DeskDay::begin(self.alloc, self.seed, periods)?;
        self.answers.extend_from_slice(day.day_answer())?;
        self.begins = true;
        self.day = Some(day);
        Ok(())
    }

    /// Enters a command, if there is a day and room for it.
    fn enter_command(&mut self, command: &Command) -> Result<(), AllocError>
        ensures line { self.new.line ≡ self.old.line }
        ensures answered { self.new.answered ≡ self.old.answered }
        ensures step { (before : List ℕ) (journal : Option JournalContent)
            → IsAt self.old before journal
            → OnOk result (Answered self.old self.new before journal (Commands command.now)) }
    {
        runs_grow();
        let Some(day) = &mut self.day else {
            return self.append_fault(InputLineFault::NotDay);
        };
        if day.is_full(command) {
            return self.append_fault(InputLineFault::JournalFull);
        }
        let number = day.entered_count() + 1;
        day.apply_and_append_entry(number, command, &mut self.entries, &mut self.answers)
    }

    /// The batch of the records that are entered.
    pub(crate) fn batch_of_records(&self) -> Result<Batch, AllocError>
        ensures { IfOk result (λ batch. text_of batch ≡ entered_text self.now) }
    {
        let Some(day) = &self.day else {
            return Batch::new(self.alloc);
        };
        let mut batch = Batch::new(self.alloc)?;
        let records = day.journal_text(self.entries.as_slice())?;
        push_lines(&mut batch, self.records_to_enter(day, records.as_slice()))?;
        Ok(batch)
    }

    /// The records that the batch enters, of those of the day and its commands.
    fn records_to_enter<'a>(&self, day: &DeskDay, records: &'a [u8]) -> &'a [u8]
        requires { records.now
            ≡ written day.now.periods (commands_of self.now.entries.items) }
        ensures { result.now
            ≡ records_text (Some day.now) self.now.begins (commands_of self.now.entries.items) }
    {
        if self.begins {
            return records;
        }
        &records[day.day_record().len()..]
    }
}

/// Adds the lines of a text to the batch. A line feed ends each.
fn push_lines(batch: &mut Batch, text: &[u8]) -> Result<(), AllocError>
    ensures { is_ended text.now ≡ true
        → OnOk result (text_of batch.new ≡ text_of batch.old ++ text.now) }
{
    let mut rest = text;
    while let Some((line, after)) = split_first_line(rest) {
        push_line(batch, line)?;
        rest = after;
    }
    Ok(())
}

/// Adds a line. A written record has no newline and no zero byte, so it is never refused as `NotALine`.
fn push_line(batch: &mut Batch, line: &[u8]) -> Result<(), AllocError>
    ensures { OnOk result (batch.new ≡ batch.old ++ line.now ∷ []) }
{
    match batch.push(line) {
        Ok(()) => Ok(()),
        Err(BatchFault::Memory | BatchFault::NotALine) => Err(AllocError),
    }
}

//! The reader of journals: it goes once over the records, up to the first fault.

ghost use Rattle.std.specs.Prelude.{◌≡◌, ◌<◌, ◌≤◌, ◌+◌, ◌⊎◌, ℕ, List, [], ◌∷◌, true, length, None, IfOk, IfErr, MatchResult};
ghost use Rattle.dam_book.specs.Book.{is_day};
ghost use Rattle.dam_book.specs.declared.command.Command.{Command};
ghost use Rattle.dam_results.specs.Limits.{most_bytes, most_records};
ghost use Rattle.dam_results.specs.Records.{kind_field, record_of_day};
ghost use Rattle.dam_results.specs.Journal.{AreRecords, IsMadeFrom, ReadsAs};
ghost use Rattle.dam_results.specs.Journal;
ghost use Rattle.dam_results.specs.Faults.{IsJournalFault, IsFaultOfRecords, IsRecordFault};
ghost use Rattle.dam_results.specs.inside.Reader.{fields_of, records_left};
ghost use Rattle.dam_results.specs.inside.NineFields.{fields_in, TakesRecord};

use crate::command_fields::{read_command_into, read_day};
use crate::csv_records::{Field, Records};
use crate::from_journal::FromJournal;
use crate::laws;
use crate::limits::{MOST_BYTES, MOST_RECORDS};
use crate::nine_fields::{NineFields, field_or_empty};
use dam_book::{Command, DayLength, PackedCommand};
use std::alloc::{AllocError, Global};
use thiserror::Error;

/// The content of a journal's text. Each command is packed as it is read.
#[derive(Debug, Drop)]
pub struct JournalRead {
    /// The number of periods of the delivery day.
    pub periods: DayLength,
    pub commands: Vec<PackedCommand>,
}

impl FromJournal for JournalRead {
    ghost use Rattle.std.specs.Prelude.{◌≡◌};

    type Context = ();

    ghost made_of = { λ periods commands journal.
        (journal.periods ≡ periods) × (journal.commands.items ≡ commands) };

    fn begin(alloc: Global, _context: (), periods: DayLength) -> Result<JournalRead, AllocError> {
        Ok(JournalRead {
            periods,
            commands: Vec::new(alloc),
        })
    }

    fn take_command(&mut self, _number: u32, command: &Command) -> Result<(), AllocError> {
        let packed = PackedCommand::of(*self.commands.allocator(), command)?;
        self.commands.push(packed)?;
        Ok(())
    }
}

/// Why a text is no journal, in the order in which it is looked for: first over the whole text, then
/// record by record. Records and fields are numbered from 1.
#[derive(Clone, Copy, PartialEq, Eq, Debug, Error)]
pub enum JournalFault {
    /// There are more than `MOST_BYTES` bytes.
    #[error("the text is too long")]
    TooLong,
    /// The byte at this offset is the first over 127.
    #[error("byte {0} is not ASCII")]
    NotAscii(usize),
    /// The record's number is over `MOST_RECORDS`.
    #[error("too many records")]
    TooManyRecords,
    /// There is no record, or the first one is no `day`.
    #[error("the first record is not a day")]
    NotDay,
    /// The record of this number doesn't have nine fields.
    #[error("record {0} does not have nine fields")]
    FieldCount(usize),
    /// In this record, this field is the least that breaks its rule.
    #[error("field {field} of record {record} is bad")]
    BadField { record: usize, field: usize },
    /// Memory ran out; it may stand in place of any fault of a record, of `NotDay`, or of a journal.
    #[error("out of memory")]
    Memory,
}

impl From<AllocError> for JournalFault {
    ghost use Rattle.std.specs.Prelude.{◌≡◌};
    ghost use Rattle.dam_results.specs.declared.journal_reading.JournalFault.TheVariants.{Memory};

    ghost from_gives = { λ _ e. e ≡ Memory };

    fn from(_error: AllocError) -> JournalFault {
        JournalFault::Memory
    }
}

fn first_non_ascii(text: &[u8]) -> Option<usize>
    ensures { result ≡ Journal.first_non_ascii text.now }
{
    if text.is_ascii() {
        return None;
    }
    text.iter().position(|byte| *byte > 127)
}

fn check_bytes(text: &[u8]) -> Result<(), JournalFault>
    ensures { MatchResult result
        (λ _. (length text.now ≤ most_bytes) × (Journal.first_non_ascii text.now ≡ None))
        (IsJournalFault text.now) }
{
    if text.len() > MOST_BYTES {
        return Err(JournalFault::TooLong);
    }
    match first_non_ascii(text) {
        Some(offset) => Err(JournalFault::NotAscii(offset)),
        None => Ok(()),
    }
}

fn kind_field<'r, 'a>(fields: &'r [Field<'a>]) -> &'r [u8]
    ensures { result.now ≡ kind_field (fields_of fields.entry.now) }
{
    field_or_empty(fields, 0)
}

fn read_day_fields(fields: &[Field]) -> Result<DayLength, JournalFault>
    ensures { MatchResult result
        (λ periods. (is_day periods ≡ true) × (fields_of fields.now ≡ record_of_day periods))
        (IsRecordFault 1 (fields_of fields.now)) }
{
    if kind_field(fields) != b"day".as_slice() {
        return Err(JournalFault::NotDay);
    }
    let Some(nine) = NineFields::of(fields) else {
        return Err(JournalFault::FieldCount(1));
    };
    read_day(&nine).map_err(|field| JournalFault::BadField { record: 1, field })
}

/// The fields of a later record, if its number is within the limit and it has nine.
fn later_fields<'r, 'a>(
    number: usize,
    fields: &'r [Field<'a>],
) -> Result<NineFields<'r>, JournalFault>
    requires { 1 < number }
    ensures { MatchResult result
        (λ nine. (number ≤ most_records) × (fields_of fields.entry.now ≡ fields_in nine))
        (IsRecordFault number (fields_of fields.entry.now)) }
{
    if number > MOST_RECORDS {
        return Err(JournalFault::TooManyRecords);
    }
    let Some(nine) = NineFields::of(fields) else {
        return Err(JournalFault::FieldCount(number));
    };
    Ok(nine)
}

/// Reads the next record, which has to be the day's.
fn read_day_record(records: &mut Records) -> Result<DayLength, JournalFault>
    ensures { MatchResult result
        (λ periods. (is_day periods ≡ true)
        × (records_left records.old ≡ record_of_day periods ∷ records_left records.new))
        (IsFaultOfRecords (records_left records.old)) }
{
    if records.read_next()? {
        read_day_fields(records.fields())
    } else {
        Err(JournalFault::NotDay)
    }
}

/// Reads the fields of a later record as the entry of this number, and gives its command to the value.
fn take_record<T: FromJournal>(
    made: &mut T,
    number: u32,
    fields: &[Field],
) -> Result<(), JournalFault>
    requires { 0 < number }
    ensures { MatchResult result
        (λ _. TakesRecord T.made_of number (fields_of fields.now) made.old made.new)
        (λ fault. (fault ≡ JournalFault.Memory)
        ⊎ IsRecordFault (number + 1) (fields_of fields.now) fault) }
{
    let record = number as usize + 1;
    let nine = later_fields(record, fields)?;
    let mut command = Command::Close;
    match read_command_into(&nine, &mut command) {
        Ok(()) => made.take_command(number, &command)?,
        Err(field) => return Err(JournalFault::BadField { record, field }),
    }
    Ok(())
}

/// Takes the commands of all records after the day's.
fn take_records<T: FromJournal>(made: &mut T, records: &mut Records) -> Result<(), JournalFault>
    ensures { (periods : ℕ) → is_day periods ≡ true → T.made_of periods [] made.old
        → MatchResult result
        (λ _. (commands : List Command)
        × AreRecords (record_of_day periods ∷ records_left records.old) periods commands
        × T.made_of periods commands made.new)
        (IsFaultOfRecords (record_of_day periods ∷ records_left records.old)) }
{
    let mut number = 0;
    while records.read_next()? {
        number += 1;
        take_record(made, number, records.fields())?;
    }
    Ok(())
}

/// The value that all the records make, with the record of the day first.
fn read_records<T: FromJournal>(
    alloc: Global,
    context: T::Context,
    records: &mut Records,
) -> Result<T, JournalFault>
    ensures { MatchResult result
        (λ made. (periods : ℕ) × (commands : List Command)
        × AreRecords (records_left records.old) periods commands
        × T.made_of periods commands made)
        (IsFaultOfRecords (records_left records.old)) }
{
    let periods = read_day_record(records)?;
    let mut made = T::begin(alloc, context, periods)?;
    take_records(&mut made, records)?;
    Ok(made)
}

fn check_and_read<T: FromJournal>(
    alloc: Global,
    context: T::Context,
    text: &[u8],
) -> Result<T, JournalFault>
    ensures ok { IfOk result (IsMadeFrom T.made_of text.now) }
    ensures fault { IfErr result (IsJournalFault text.now) }
{
    check_bytes(text)?;
    let mut records = Records::of(alloc, text);
    read_records(alloc, context, &mut records)
}

/// The value that the journal in a text makes, or the first fault of the text. The records past the first faulty one
/// aren't kept.
pub fn read_into<T: FromJournal>(
    alloc: Global,
    context: T::Context,
    text: &[u8],
) -> Result<T, JournalFault>
    ensures ok { IfOk result (IsMadeFrom T.made_of text.now) }
    ensures fault { IfErr result (IsJournalFault text.now) }

    // A journal is read, unless memory runs out.
    ensures exact { (periods : ℕ) (commands : List Command) → ReadsAs text.now periods commands
        → MatchResult result (T.made_of periods commands)
        (λ fault. fault ≡ JournalFault.Memory) }
{
    laws::text_is_one_journal();
    laws::fault_is_no_journal();
    check_and_read(alloc, context, text)
}

/// The journal that a text says, or the first fault of the text.
///
/// `JournalFault` lists the faults in the order in which they are looked for. The records past the
/// first faulty one aren't kept. The last command need not be a close.
pub fn read_journal(alloc: Global, text: &[u8]) -> Result<JournalRead, JournalFault>
    ensures ok { IfOk result (λ journal. ReadsAs text.now journal.periods journal.commands.items) }
    ensures fault { IfErr result (IsJournalFault text.now) }

    // A journal is read, unless memory runs out.
    ensures exact { (periods : ℕ) (commands : List Command) → ReadsAs text.now periods commands
        → MatchResult result
        (λ journal. (journal.periods ≡ periods) × (journal.commands.items ≡ commands))
        (λ fault. fault ≡ JournalFault.Memory) }
{
    read_into(alloc, (), text)
}

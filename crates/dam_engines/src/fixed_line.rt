//! The line of each fault, made in fixed room: it needs no memory, since memory may have run out.
ghost use Rattle.std.specs.Prelude.{◌≡◌, ◌≤◌, ◌+◌, ◌++◌, length, codes, decimal, IfOk};
ghost use Rattle.dam_engines.specs.Fault.{fault_text, input_text, mismatch_text};

use crate::fault::RunFault;
use arrayvec::ArrayString;
use dam_gate::Mismatch;
use dam_results::JournalFault;
use dam_search::NodeCount;
use itoa::Buffer;
use std::alloc::{AllocError, Allocator};
use std::fmt;

/// The bytes that a text or a line has room for. The longest has 74 with its line feed.
const ROOM: usize = 96;

/// Adds the words and the number.
fn push_with_number(text: &mut ArrayString<ROOM>, words: &str, number: u64)
    requires { length text.old.bytes + length words.now ≤ 76 }
    ensures text { text.new.bytes ≡ text.old.bytes ++ (words.now ++ decimal number) }
    ensures short { length text.new.bytes ≤ length text.old.bytes + length words.now + 20 }
{
    text.push_str(words);
    text.push_str(Buffer::new().format(number));
}

/// These words, as a text.
fn text_of_words(words: &str) -> ArrayString<ROOM>
    requires { length words.now ≤ 40 }
    ensures text { result.bytes ≡ words.now }
{
    let mut text = ArrayString::new();
    text.push_str(words);
    text
}

/// The text of these words and the number.
fn text_with_number(words: &str, number: u64) -> ArrayString<ROOM>
    requires { length words.now ≤ 40 }
    ensures text { result.bytes ≡ words.now ++ decimal number }
    ensures short { length result.bytes ≤ length words.now + 20 }
{
    let mut text = ArrayString::new();
    push_with_number(&mut text, words, number);
    text
}

/// The text of a bad field.
fn bad_field_text(at: usize, field: usize) -> ArrayString<ROOM>
    ensures text { result.bytes ≡ codes "input: BadField in record "
        ++ (decimal at ++ (codes " field " ++ decimal field)) }
    ensures short { length result.bytes ≤ 80 }
{
    let mut text = text_with_number("input: BadField in record ", at as u64);
    push_with_number(&mut text, " field ", field as u64);
    text
}

/// The text of a search that didn't finish.
fn unfinished_text(piece: u32, visited: NodeCount) -> ArrayString<ROOM>
    ensures text { result.bytes ≡ codes "unfinished: piece "
        ++ (decimal piece ++ (codes " after " ++ (decimal visited ++ codes " nodes"))) }
    ensures short { length result.bytes ≤ 80 }
{
    let mut text = text_with_number("unfinished: piece ", u64::from(piece));
    push_with_number(&mut text, " after ", u64::from(visited));
    text.push_str(" nodes");
    text
}

/// The text of a failed write.
fn failed_write_text(written: usize) -> ArrayString<ROOM>
    ensures text { result.bytes
        ≡ codes "device: write after " ++ (decimal written ++ codes " bytes") }
    ensures short { length result.bytes ≤ 80 }
{
    let mut text = text_with_number("device: write after ", written as u64);
    text.push_str(" bytes");
    text
}

/// The text of a fault of the input.
fn input_fault_text(fault: JournalFault) -> ArrayString<ROOM>
    ensures text { result.bytes ≡ input_text fault }
    ensures short { length result.bytes ≤ 80 }
{
    match fault {
        JournalFault::TooLong => text_of_words("input: TooLong"),
        JournalFault::NotAscii(offset) => text_with_number("input: NotAscii at ", offset as u64),
        JournalFault::TooManyRecords => text_of_words("input: TooManyRecords"),
        JournalFault::NotDay => text_of_words("input: NotDay"),
        JournalFault::FieldCount(record) => text_with_number(
            "input: FieldCount in record ",
            record as u64,
        ),
        JournalFault::BadField { record, field } => bad_field_text(record, field),
        JournalFault::Memory => text_of_words("memory"),
    }
}

/// The text of a journal and receipts that don't fit together.
fn mismatch_text(why: Mismatch) -> ArrayString<ROOM>
    ensures text { result.bytes ≡ mismatch_text why }
    ensures short { length result.bytes ≤ 80 }
{
    match why {
        Mismatch::StillOpen => text_of_words("mismatch: StillOpen"),
        Mismatch::Missing(number) => text_with_number("mismatch: Missing ", u64::from(number)),
        Mismatch::Doubled(number) => text_with_number("mismatch: Doubled ", u64::from(number)),
        Mismatch::Differs(number) => text_with_number("mismatch: Differs ", u64::from(number)),
        Mismatch::Extra(number) => text_with_number("mismatch: Extra ", u64::from(number)),
        Mismatch::Memory => text_of_words("memory"),
    }
}

/// The text of a fault, as its line has it before the line feed.
pub(crate) fn fault_text(fault: &RunFault) -> ArrayString<ROOM>
    ensures text { result.bytes ≡ fault_text fault.now }
    ensures short { length result.bytes ≤ 80 }
{
    match *fault {
        RunFault::Read => text_of_words("device: read"),
        RunFault::Input(fault) => input_fault_text(fault),
        RunFault::TooManyCommands => text_of_words("input: TooManyCommands"),
        RunFault::CloseGiven(record) => text_with_number(
            "input: CloseGiven in record ",
            record as u64,
        ),
        RunFault::TooManyParticipants(record) => {
            text_with_number("input: TooManyParticipants in record ", record as u64)
        }
        RunFault::StillOpen => text_of_words("input: StillOpen"),
        RunFault::Mismatch(why) => mismatch_text(why),
        RunFault::Unfinished { piece, visited } => unfinished_text(piece, visited),
        // 'Collected' is the word of the published format for a fault of `result_of_answers`, which no search ends in.
        RunFault::AnswerMissingOrRepeated { piece } => text_with_number(
            "mismatch: Collected ",
            u64::from(piece),
        ),
        RunFault::Memory => text_of_words("memory"),
        RunFault::Write { written } => failed_write_text(written),
    }
}

/// The line that the program prints on standard error, with its line feed. It needs no memory.
pub fn fixed_fault_line(fault: &RunFault) -> ArrayString<ROOM>
    ensures { result.bytes ≡ fault_text fault.now ++ codes "\n" }
{
    let mut line = fault_text(fault);
    line.push_str("\n");
    line
}

impl fmt::Display for RunFault {
    ghost use Rattle.std.specs.Prelude.{Some};
    ghost use Rattle.dam_engines.specs.Fault.{fault_text};

    ghost output = { λ fault. Some (fault_text fault) };

    fn fmt<W: fmt::Write>(&self, f: &mut fmt::Formatter<W>) -> fmt::Result {
        f.write_str(fault_text(self).as_str())
    }
}

/// The line that the program prints on standard error, with its line feed.
pub fn fault_line<A: Allocator>(alloc: A, fault: &RunFault) -> Result<Vec<u8, A>, AllocError>
    ensures { IfOk result (λ line. line.items ≡ fault_text fault.now ++ codes "\n") }
{
    let line = format!(in alloc; "{fault}\n")?;
    Ok(line.into_bytes())
}

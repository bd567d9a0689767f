//! The text that a person at a terminal reads in addition to a fault of the input, or to the refusal of words that name
//! a file or ask for the version.

ghost use Rattle.std.specs.Prelude.{◌≡◌, ◌-◌, ◌≤◌, ◌↔◌, pos, false, map, IfSome, IsSome, option_map};
ghost use Rattle.std.specs.List.{list_any};
ghost use Rattle.std.specs.String.{string_bytes};
ghost use Rattle.dam_results.specs.declared.journal_reading.JournalFault.{JournalFault};
ghost use Rattle.dam_engines.specs.Fault.{fault_status, input_status};
ghost use Rattle.dam_book.specs.Limits.{lowest_price, highest_price, greatest_volume, most_entries};
ghost use Rattle.dam_cli.specs.Advice.{BeginsWithField, HasNumber, NamesItsField, ShowsDays, ShowsItsLimits, ShowsLimitsOfField, ShowsRange, rule_text};
ghost use Rattle.dam_cli.specs.Advice.{command_and_file, first_file, has_equals_sign, is_command, is_option, is_version_word, quote_of};

use dam_book::{GREATEST_VOLUME, HIGHEST_PRICE, LOWEST_PRICE};
use dam_engines::RunFault;
use dam_results::JournalFault;
use std::fmt;

/// A rule that an input can break, as a person at a terminal reads it.
#[derive(Clone, Copy)]
pub enum Rule {
    /// This text.
    Plain(&'static str),
    /// The text before the least and the greatest allowed number, these two, and the text after them.
    Within {
        before: &'static str,
        least: i64,
        greatest: i64,
        after: &'static str,
    },
}

impl fmt::Display for Rule {
    ghost use Rattle.std.specs.Prelude.{Some};
    ghost use Rattle.dam_cli.specs.Advice.{rule_text};

    ghost output = { λ rule. Some (rule_text rule) };

    fn fmt<W: fmt::Write>(&self, f: &mut fmt::Formatter<W>) -> fmt::Result {
        match self {
            Rule::Plain(text) => f.write_str(text),
            Rule::Within {
                before,
                least,
                greatest,
                after,
            } => write!(f, "{before} from {least} to {greatest}{after}"),
        }
    }
}

/// The rule that the input breaks; `None` for a fault that isn't the input's.
pub fn rule_of(fault: &RunFault) -> Option<Rule>
    ensures input { IsSome result ↔ (fault_status fault.now ≡ 1) }
    ensures field { (given : JournalFault) → fault.now ≡ RunFault.Input given
        → IfSome result (λ rule. NamesItsField given (rule_text rule)) }
    ensures limits { (given : JournalFault) → fault.now ≡ RunFault.Input given
        → IfSome result (λ rule. ShowsItsLimits given rule) }
    ensures commands { fault.now ≡ RunFault.TooManyCommands
        → IfSome result (HasNumber (most_entries - 1)) }
{
    let text = match fault {
        RunFault::Input(fault) => return rule_of_journal(*fault),
        RunFault::TooManyCommands => "a day takes 9,999 commands at most", // the clause `commands`
        RunFault::CloseGiven(_) =>
            "a day is closed by its operator: leave out the record close,,,,,,,,",
        RunFault::TooManyParticipants(_) => "a day takes 8 participants at most", // `test_facts.py`
        RunFault::StillOpen =>
            "a book is cleared when it is closed: end the journal with close,,,,,,,,",
        RunFault::Mismatch(_)
        | RunFault::Unfinished { .. }
        | RunFault::AnswerMissingOrRepeated { .. }
        | RunFault::Read
        | RunFault::Memory
        | RunFault::Write { .. } => return None,
    };
    Some(Rule::Plain(text))
}

/// The same for a journal's fault.
fn rule_of_journal(fault: JournalFault) -> Option<Rule>
    ensures input { IsSome result ↔ (input_status fault ≡ 1) }
    ensures field { IfSome result (λ rule. NamesItsField fault (rule_text rule)) }
    ensures limits { IfSome result (λ rule. ShowsItsLimits fault rule) }
{
    let text = match fault {
        JournalFault::TooLong => "a journal has 16,777,216 bytes at most", // the clause `limits`
        JournalFault::NotAscii(0) => {
            "a journal is plain ASCII: save it without a byte order mark"
        }
        JournalFault::NotAscii(_) => {
            "a journal is plain ASCII, without accents; dam-table --journal turns a workbook into one"
        }
        JournalFault::TooManyRecords => "a journal has the day and 10,000 commands at most",
        JournalFault::NotDay => {
            "the first record is the day, such as day,24,,,,,,,: a journal has no header, and commas between its fields"
        }
        JournalFault::FieldCount(_) =>
            "a record has nine fields, and so eight commas, as in close,,,,,,,,",
        JournalFault::BadField { record: 1, field } => rule_of_day(field),
        JournalFault::BadField { field, .. } => return Some(rule_of_command(field)),
        JournalFault::Memory => return None,
    };
    Some(Rule::Plain(text))
}

/// The rule of a field of the first record.
fn rule_of_day(field: usize) -> &'static str
    ensures field { field ≡ 2 → BeginsWithField 2 result.now }
    ensures days { field ≡ 2 → ShowsDays result.now }
{
    match field {
        2 => "field 2 of the day is its number of periods: 23, 24, 25, 92, 96 or 100",
        _ => "fields 3 to 9 of the day are empty",
    }
}

/// The rule of a field of a command's record.
fn rule_of_command(field: usize) -> Rule
    ensures field { 1 ≤ field → field ≤ 9 → BeginsWithField field (rule_text result) }
    ensures limits { ShowsLimitsOfField field result }
{
    let text = match field {
        1 => "field 1 is what the record is: submit, amend, cancel or close",
        2 => "field 2 is the participant: 1 to 8 capitals; empty in a close",
        3 => "field 3 is the order's name: 1 to 12 capitals, digits and dashes; empty in a close",
        4 => "field 4 is hour or block in a submit, and empty in any other record",
        5 => "field 5 is buy or sell in a submit, and empty in any other record",
        6 => return rule_of_price(),
        7 => return rule_of_volumes(),
        8 =>
            "field 8 is the parent of a block, an order's name or empty; empty in any other record",
        _ =>
            "field 9 is the exclusive group of a block, a name or empty; empty in any other record",
    };
    Rule::Plain(text)
}

/// The rule of a limit price.
fn rule_of_price() -> Rule
    ensures field { BeginsWithField 6 (rule_text result) }
    ensures range { ShowsRange lowest_price highest_price result }
{
    Rule::Within {
        before: "field 6 is the limit price: whole cents",
        least: i64::from(LOWEST_PRICE),
        greatest: i64::from(HIGHEST_PRICE),
        after: ", without leading zeros; empty in a cancel and a close",
    }
}

/// The rule of the volumes.
fn rule_of_volumes() -> Rule
    ensures field { BeginsWithField 7 (rule_text result) }
    ensures range { ShowsRange (pos 1) (pos greatest_volume) result }
{
    Rule::Within {
        before: "field 7 is the volumes, period:volume, for a block by increasing period, separated by ;, each",
        least: 1,
        greatest: i64::from(GREATEST_VOLUME),
        after: " tenths of a MW; empty in a cancel and a close",
    }
}

/// The command, if the first word is one of the three, and the first word after it that neither begins with `-` nor
/// follows a word that does and has no `=`.
pub fn command_and_file(words: &[String]) -> Option<(&str, &str)>
    ensures { option_map (λ found. (found.0.now, found.1.now)) result
        ≡ command_and_file (map string_bytes words.now) }
{
    let (command, rest) = words.split_first()?;
    if !is_command(command.as_str()) {
        return None;
    }
    let file = first_file(rest)?;
    Some((command.as_str(), file))
}

/// Whether the word is one of the three commands.
fn is_command(word: &str) -> bool
    ensures { result ≡ is_command word.now }
{
    word == "replay" || word == "clear" || word == "day"
}

/// The first of these words that is neither an option nor an option's number.
fn first_file(words: &[String]) -> Option<&str>
    ensures { option_map (λ file. file.now) result
        ≡ first_file false (map string_bytes words.now) }
{
    let mut is_number = false;
    for word in words {
        let word = word.as_str();
        if is_number {
            is_number = false;
        } else if is_option(word) {
            is_number = !has_equals_sign(word);
        } else {
            return Some(word);
        }
    }
    None
}

/// Whether the word begins with `-`.
fn is_option(word: &str) -> bool
    ensures { result ≡ is_option word.now }
{
    word.as_bytes().starts_with(b"-")
}

/// Whether the option has its number in the same word, after a `=`.
fn has_equals_sign(word: &str) -> bool
    ensures { result ≡ has_equals_sign word.now }
{
    word.as_bytes().contains(&b'=')
}

/// The quote that is printed on each side of a file's name: `'` for an empty name and for one with a space, unless it
/// has a `'` itself. No other character that a shell reads, such as `&`, calls for it.
pub fn quote_of(file: &str) -> &'static str
    ensures { result.now ≡ quote_of file.now }
{
    let bytes = file.as_bytes();
    if (bytes.is_empty() || bytes.contains(&b' ')) && !bytes.contains(&b'\'') {
        "'"
    } else {
        ""
    }
}

/// Whether a word asks for the version, which the program doesn't know.
pub fn asks_version(words: &[String]) -> bool
    ensures { result ≡ list_any (λ word. is_version_word (string_bytes word)) words.now }
{
    words.iter().any(|word| is_version_word(word.as_str()))
}

/// Whether this word asks for the version.
fn is_version_word(word: &str) -> bool
    ensures { result ≡ is_version_word word.now }
{
    word == "--version" || word == "-V"
}

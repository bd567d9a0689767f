//! Laws of written journals and of their other spellings, each the contract of a function that does
//! nothing.
ghost use Rattle.std.specs.Prelude.{◌≡◌, ◌≤◌, ℕ, List, ◌∷◌, true, length, map};
ghost use Rattle.std.specs.List.{AllByRecursion};
ghost use Rattle.dam_book.specs.Book.{is_day, commands_of};
ghost use Rattle.dam_book.specs.declared.command.Command.{Command};
ghost use Rattle.dam_book.specs.declared.command.Entry.{Entry};
ghost use Rattle.dam_book.specs.Limits.{most_entries};
ghost use Rattle.dam_results.specs.Limits.{most_bytes};
ghost use Rattle.dam_results.specs.Records.{record_of_day, record_of_command};
ghost use Rattle.dam_results.specs.Journal.{IsCommand, ReadsAs};
ghost use Rattle.dam_results.specs.Spelling.{IsSpelled};
ghost use Rattle.dam_results.specs.Written.{journal_text};

/// A text within the limits that spells the records of a day and of commands reads as that day and
/// those commands, whichever fields stand in quotes, whichever line ends it uses and wherever it has
/// empty lines.
#[tactic(auto, using(crate::proofs::ReadBack::reads_spelled))]
pub fn spellings_read_alike()
    ensures { (periods : ℕ) (commands : List Command) (text : List ℕ)
        → is_day periods ≡ true → AllByRecursion IsCommand commands
        → length commands ≤ most_entries
        → length text ≤ most_bytes
        → IsSpelled (record_of_day periods ∷ map record_of_command commands) text
        → ReadsAs text periods commands }
{}

/// The written journal is one of the spellings of its records.
#[tactic(auto, using(crate::proofs::ReadBack::spelled_written))]
pub fn written_journals_are_spelled()
    ensures { (periods : ℕ) (entries : List Entry)
        → is_day periods ≡ true → AllByRecursion IsCommand (commands_of entries)
        → IsSpelled (record_of_day periods ∷ map record_of_command (commands_of entries))
        (journal_text periods entries) }
{}

/// The written journal of as many entries as a journal may hold is within the limit on bytes, and
/// reads as its day and the commands of its entries.
#[tactic(auto, using(crate::proofs::ReadBack::reads_journal_text))]
pub fn written_journals_read()
    ensures { (periods : ℕ) (entries : List Entry)
        → is_day periods ≡ true → AllByRecursion IsCommand (commands_of entries)
        → length entries ≤ most_entries
        → ReadsAs (journal_text periods entries) periods (commands_of entries) }
{}

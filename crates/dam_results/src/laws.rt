//! Laws of the journal format, each the contract of a function that does nothing but cite the laws
//! that it rests on.
ghost use Rattle.std.specs.Prelude.{◌≡◌, ◌≢◌, ◌⊎◌, ℕ, List};
ghost use Rattle.dam_book.specs.declared.command.Command.{Command};
ghost use Rattle.dam_results.specs.declared.journal_reading.JournalFault.{JournalFault};
ghost use Rattle.dam_results.specs.declared.journal_reading.JournalFault.TheVariants.{Memory};
ghost use Rattle.dam_results.specs.Limits.{most_bytes, most_records};
ghost use Rattle.dam_results.specs.Journal.{ReadsAs};
ghost use Rattle.dam_results.specs.Faults.{IsJournalFault};

use crate::limits::{MOST_BYTES, MOST_RECORDS};
use dam_book::laws::{price_texts_differ, volumes_texts_differ};

/// Each exported constant is the number of its limit, and each limit of the journal format is this number.
pub fn limits()
    ensures bytes { MOST_BYTES ≡ most_bytes }
    ensures records { MOST_RECORDS ≡ most_records }
    ensures bytes_is { most_bytes ≡ 16777216 }
    ensures records_is { most_records ≡ 10001 }
{}

/// A text is at most one journal.
pub fn text_is_one_journal()
    ensures { (text : List ℕ) (periods others : ℕ) (commands more : List Command)
        → ReadsAs text periods commands → ReadsAs text others more
        → (periods ≡ others) × (commands ≡ more) }
{
    price_texts_differ();
    volumes_texts_differ();
}

/// A text that has a fault other than lack of memory is no journal.
pub fn fault_is_no_journal()
    ensures { (text : List ℕ) (fault : JournalFault) (periods : ℕ) (commands : List Command)
        → IsJournalFault text fault → ReadsAs text periods commands → fault ≡ Memory }
{}

/// A text has one first fault: of two that differ, one is lack of memory.
pub fn text_has_one_fault()
    ensures { (text : List ℕ) (fault other : JournalFault)
        → IsJournalFault text fault → IsJournalFault text other
        → (fault ≡ other) ⊎ ((fault ≡ Memory) ⊎ (other ≡ Memory)) }
{}

/// Each text is a journal, or has a first fault other than lack of memory. With the laws above, the
/// reader's answer follows from the text, unless memory runs out.
pub fn text_is_journal_or_faulty()
    ensures { (text : List ℕ)
        → ((periods : ℕ) × (commands : List Command) × ReadsAs text periods commands)
        ⊎ ((fault : JournalFault) × IsJournalFault text fault × (fault ≢ Memory)) }
{}

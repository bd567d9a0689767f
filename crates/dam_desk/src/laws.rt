//! Laws of a desk's journal, each the contract of a function that does nothing but cite the laws that it rests on.
ghost use Rattle.std.specs.Prelude.{◌≡◌, ◌⊎◌, ◌++◌, ℕ, List, Option, IfSome};
ghost use Rattle.dam_desk.specs.Desk.{IsLegalAndUnambiguous};
ghost use Rattle.dam_desk.specs.DeskJournal.{JournalContent, DeskState, AreAnswers, AreAnswersToEntered, ReadsBack, answer_to, journal_after_line, desk_replies_text};
ghost use Rattle.dam_desk.specs.InputLines.{IsMeaning};
ghost use Rattle.dam_desk.specs.declared.meaning.Meaning.{Meaning};

use dam_book::laws::{histories_are_runs, runs_grow};
use dam_results::laws::{fault_is_no_journal, text_has_one_fault, text_is_one_journal};
use dam_results::spelling_laws::written_journals_read;

/// The text of a journal reads as the journal, whatever lines were answered. A line that enters something adds its answer
/// to the text that `dam replay` prints; any other leaves the journal.
pub(crate) fn journals_grow()
    ensures reads { (state last : DeskState) (lines : List (List ℕ)) (answers : List ℕ)
        → ReadsBack state.journal → AreAnswers state lines answers last
        → ReadsBack last.journal }
    ensures replies { (number : ℕ) (journal : Option JournalContent) (meaning : Meaning)
        → (journal_after_line journal meaning ≡ journal)
        ⊎ (desk_replies_text (journal_after_line journal meaning)
        ≡ desk_replies_text journal ++ answer_to number journal meaning) }
{
    histories_are_runs();
    runs_grow();
    written_journals_read();
}

/// A line has one meaning in a journal: it is one record, or has one fault.
pub(crate) fn lines_have_one_meaning()
    ensures { (day : Option ℕ) (text : List ℕ) (meaning other : Meaning)
        → IsMeaning day text meaning → IsMeaning day text other → meaning ≡ other }
{
    text_is_one_journal();
    fault_is_no_journal();
    text_has_one_fault();
}

/// The replies to a journal, after the answers to some lines, are those before, and then the answers to the lines that
/// entered something.
pub(crate) fn replies_are_answers()
    ensures { (state last : DeskState) (lines : List (List ℕ)) (answers : List ℕ)
        → AreAnswers state lines answers last
        → (replies : List ℕ) × AreAnswersToEntered state lines replies
        × (desk_replies_text last.journal ≡ desk_replies_text state.journal ++ replies) }
{
    runs_grow();
}

/// The entries of a journal are a legal history, and its text has no other commands.
pub(crate) fn journals_are_unambiguous()
    ensures { (journal : Option JournalContent) → ReadsBack journal
        → IfSome journal IsLegalAndUnambiguous }
{
    histories_are_runs();
    text_is_one_journal();
}

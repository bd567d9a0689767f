//! The run of a journal's commands: its book, and the number of refused commands.

ghost use Rattle.std.specs.Prelude.{◌≡◌, ◌≤◌, ℕ, List, length, IfOk, IfErr, MatchResult};
ghost use Rattle.dam_book.specs.declared.command.Command.{Command};
ghost use Rattle.dam_results.specs.Journal.{ReadsAs};
ghost use Rattle.dam_results.specs.Faults.{IsJournalFault};
ghost use Rattle.dam_results.specs.Run.{HasRefused, IsRun};

use crate::from_journal::FromJournal;
use crate::journal_reading::{JournalFault, read_into};
use dam_book::laws::runs_grow;
use dam_book::{Book, Command, DayLength, Reply, Seed};
use std::alloc::{AllocError, Global};

/// The run of a journal's commands.
#[derive(Drop)]
pub struct Run {
    /// The book that they make.
    pub book: Book,
    /// The number of them that the book refused.
    pub refused: u32,
}

impl FromJournal for Run {
    ghost use Rattle.std.specs.Prelude.{◌≡◌, ◌≤◌, length};
    ghost use Rattle.dam_results.specs.Run.{HasRefused, IsRun};

    type Context = Seed;

    ghost made_of = { λ periods commands run. IsRun periods commands run.book
        × HasRefused periods commands run.refused × (run.refused ≤ length commands) };

    fn begin(alloc: Global, seed: Seed, periods: DayLength) -> Result<Run, AllocError> {
        let book = Book::for_day(alloc, periods, seed);
        Ok(Run { book, refused: 0 })
    }

    fn take_command(&mut self, _number: u32, command: &Command) -> Result<(), AllocError> {
        runs_grow();
        if let Reply::Refused(_) = self.book.apply(command)? {
            self.refused = self.refused.saturating_add(1);
        }
        Ok(())
    }
}

/// The run of a journal, from its text, or the first fault of the text.
///
/// Each command is applied as it is read, and no list of them is kept. The book hashes names by the seed.
pub fn run_of_text(alloc: Global, seed: Seed, text: &[u8]) -> Result<Run, JournalFault>
    ensures ok { IfOk result (λ run. (periods : ℕ) × (commands : List Command)
        × ReadsAs text.now periods commands
        × IsRun periods commands run.book × HasRefused periods commands run.refused) }
    ensures fault { IfErr result (IsJournalFault text.now) }

    // A journal is run, unless memory runs out.
    ensures exact { (periods : ℕ) (commands : List Command) → ReadsAs text.now periods commands
        → MatchResult result
        (λ run. IsRun periods commands run.book × HasRefused periods commands run.refused
        × (run.refused ≤ length commands))
        (λ fault. fault ≡ JournalFault.Memory) }
{
    read_into(alloc, seed, text)
}

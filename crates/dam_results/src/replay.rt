//! The replay of a journal: the text of the replies in the run of its commands.

ghost use Rattle.std.specs.Prelude.{◌≡◌, ◌++◌, ℕ, List, IfOk, IfErr, OnOk, MatchResult};
ghost use Rattle.dam_book.specs.Book.{book_after, reply_to};
ghost use Rattle.dam_book.specs.declared.command.Command.{Command};
ghost use Rattle.dam_results.specs.Journal.{IsMadeFrom, ReadsAs};
ghost use Rattle.dam_results.specs.Faults.{IsJournalFault};
ghost use Rattle.dam_results.specs.Replies.{AreReplies, reply_line};

use crate::from_journal::FromJournal;
use crate::journal_reading::{JournalFault, read_into};
use crate::lines::append_day;
use crate::replies_writing::append_reply_line;
use dam_book::laws::runs_grow;
use dam_book::{Book, Command, DayLength, Seed};
use std::alloc::{AllocError, Global};

/// The replay so far: the book of the run, and the text of its replies.
#[derive(Drop)]
struct Replay {
    book: Book,
    text: Vec<u8>,
}

impl FromJournal for Replay {
    ghost use Rattle.std.specs.Prelude.{◌≡◌};
    ghost use Rattle.dam_results.specs.Replies.{AreReplies};
    ghost use Rattle.dam_results.specs.Run.{IsRun};

    type Context = Seed;

    ghost made_of = { λ periods commands replay.
        IsRun periods commands replay.book × AreReplies periods commands replay.text.items };

    fn begin(alloc: Global, seed: Seed, periods: DayLength) -> Result<Replay, AllocError> {
        let mut text = Vec::new(alloc);
        append_day(&mut text, u64::from(periods.get()))?;
        let book = Book::for_day(alloc, periods, seed);
        Ok(Replay { book, text })
    }

    fn take_command(&mut self, number: u32, command: &Command) -> Result<(), AllocError> {
        runs_grow();
        let reply = self.book.apply(command)?;
        append_reply_line(&mut self.text, number, reply)
    }
}

/// The replies text of the run of a journal, from its text, or the first fault of the text.
///
/// Each command is applied as it is read, and no list of them is kept. The book hashes names by the seed.
pub fn replay_text(alloc: Global, seed: Seed, text: &[u8]) -> Result<Vec<u8>, JournalFault>
    ensures ok { IfOk result (λ replies. IsMadeFrom AreReplies text.now replies.items) }
    ensures fault { IfErr result (IsJournalFault text.now) }

    // A journal is run, unless memory runs out.
    ensures exact { (periods : ℕ) (commands : List Command) → ReadsAs text.now periods commands
        → MatchResult result
        (λ replies. AreReplies periods commands replies.items)
        (λ fault. fault ≡ JournalFault.Memory) }
{
    let replay: Replay = read_into(alloc, seed, text)?;
    Ok(replay.text)
}

//! The day of a desk: its book, and how many commands were entered.
ghost use Rattle.std.specs.Prelude.{◌≡◌, ◌⊎◌, ◌+◌, ◌≤◌, ◌++◌, ◌∷◌, [], true, false, if◌then◌else◌, length, IfOk, OnOk};
ghost use Rattle.dam_book.specs.Book.{book_after, commands_of, empty_book, is_day, reply_to};
ghost use Rattle.dam_book.specs.Limits.{most_entries};
ghost use Rattle.dam_results.specs.Replies.{day_line, reply_line};
ghost use Rattle.dam_results.specs.Records.{record_of_day};
ghost use Rattle.dam_results.specs.Written.{record_line, written};
ghost use Rattle.dam_book.specs.Command.{is_journal_full};

use dam_book::{
    Book, Command, DayLength, PackedCommand, PackedEntry, Reply, Seed, is_journal_full,
};
use dam_results::{append_reply_line, journal_text, replies_text};
use std::alloc::{AllocError, Global};

/// The book of a day, and how many commands were entered.
#[derive(Drop)]
pub(crate) struct DeskDay {
    alloc: Global,
    periods: DayLength,
    book: Book,
    entered: u32,
    /// The record of the day, with its line feed.
    day_record: Vec<u8>,
    /// The line of the day, which answers its record. `dam replay` prints it first.
    day_answer: Vec<u8>,
    ghost valid: { is_day periods ≡ true },
    ghost day_record_is: { day_record.items ≡ record_line (record_of_day periods) },
    ghost day_answer_is: { day_answer.items ≡ day_line periods },
}

impl DeskDay {
    /// The day with an empty book.
    pub(crate) fn begin(
        alloc: Global,
        seed: Seed,
        periods: DayLength,
    ) -> Result<DeskDay, AllocError>
        ensures periods { IfOk result (λ day. day.periods ≡ periods) }
        ensures book { IfOk result (λ day. day.book ≡ empty_book periods) }
        ensures entered { IfOk result (λ day. day.entered ≡ 0) }
        ensures valid { OnOk result (is_day periods ≡ true) }
    {
        let _valid = periods.get(); // for the proof: the length of a day
        Ok(DeskDay {
            alloc,
            periods,
            book: Book::for_day(alloc, periods, seed),
            entered: 0,
            day_record: journal_text(alloc, periods, &[])?,
            day_answer: replies_text(alloc, periods, &[])?,
        })
    }

    pub(crate) fn periods(&self) -> DayLength
        ensures { result ≡ self.now.periods }
    {
        self.periods
    }

    pub(crate) fn day_record(&self) -> &[u8]
        ensures { result.now ≡ record_line (record_of_day self.now.periods) }
    {
        self.day_record.as_slice()
    }

    pub(crate) fn day_answer(&self) -> &[u8]
        ensures { result.now ≡ day_line self.now.periods }
    {
        self.day_answer.as_slice()
    }

    pub(crate) fn entered_count(&self) -> u32
        ensures { result ≡ self.now.entered }
    {
        self.entered
    }

    /// Whether there is no room left for a command like this. The last entry is kept for a close.
    pub(crate) fn is_full(&self, command: &Command) -> bool
        ensures value { result ≡ is_journal_full self.now.entered command.now }
        ensures room { result ≡ false → self.now.entered + 1 ≤ most_entries }
    {
        is_journal_full(self.entered, command.participant())
    }

    /// Applies the command to the book as the entry of this number, and appends the line of its reply.
    pub(crate) fn apply_and_append_reply(
        &mut self,
        number: u32,
        command: &Command,
        replies: &mut Vec<u8>,
    ) -> Result<Reply, AllocError>
        ensures periods { self.new.periods ≡ self.old.periods }
        ensures book { OnOk result (self.new.book ≡ book_after self.old.book command.now) }
        ensures entered { OnOk result (self.new.entered ≡ number) }
        ensures room { self.old.entered ≤ most_entries → number ≤ most_entries
            → self.new.entered ≤ most_entries }
        ensures kept { (self.new.entered ≡ self.old.entered) ⊎ (self.new.entered ≡ number) }
        ensures replies { OnOk result (replies.new.items
            ≡ replies.old.items ++ reply_line number (reply_to self.old.book command.now)) }
    {
        let reply = self.book.apply(command)?;
        self.entered = number;
        append_reply_line(replies, number, reply)?;
        Ok(reply)
    }

    /// Applies the command as `apply_and_append_reply` does, and adds its entry.
    pub(crate) fn apply_and_append_entry(
        &mut self,
        number: u32,
        command: &Command,
        entries: &mut Vec<PackedEntry>,
        replies: &mut Vec<u8>,
    ) -> Result<(), AllocError>
        ensures periods { self.new.periods ≡ self.old.periods }
        ensures book { OnOk result (self.new.book ≡ book_after self.old.book command.now) }
        ensures entered { OnOk result (self.new.entered ≡ number) }
        ensures few { length entries.old.items ≤ self.old.entered
            → number ≡ self.old.entered + 1
            → length entries.new.items ≤ self.new.entered }
        ensures room { self.old.entered ≤ most_entries → number ≤ most_entries
            → self.new.entered ≤ most_entries }
        ensures entries { OnOk result (commands_of entries.new.items
            ≡ commands_of entries.old.items ++ command.now ∷ []) }
        ensures replies { OnOk result (replies.new.items
            ≡ replies.old.items ++ reply_line number (reply_to self.old.book command.now)) }
    {
        let packed = PackedCommand::of(self.alloc, command)?;
        let reply = self.apply_and_append_reply(number, command, replies)?;
        entries.push(PackedEntry::new(number, packed, reply))?;
        Ok(())
    }

    /// The record of the day, and the records of the entries.
    pub(crate) fn journal_text(&self, entries: &[PackedEntry]) -> Result<Vec<u8>, AllocError>
        requires { length entries.now ≤ most_entries }
        ensures { IfOk result (λ text. text.items
            ≡ written self.now.periods (commands_of entries.now)) }
    {
        journal_text(self.alloc, self.periods, entries)
    }
}

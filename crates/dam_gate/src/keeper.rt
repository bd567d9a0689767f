//! The book of a day and its journal. A step has two halves: the first may fail, and the second can't.

ghost use Rattle.std.specs.Prelude.{◌≡◌, ◌<◌, ◌≤◌, ◌+◌, true, false, length, option_copied, IfOk, IfErr, OnOk, OnErr};
ghost use Rattle.std.specs.Arc.{arc_value};
ghost use Rattle.dam_book.specs.Book.{book_after, is_day, refusal};
ghost use Rattle.dam_gate.specs.Journal.{IsJournal, empty_journal, journal_after, next_entry};
ghost use Rattle.dam_book.specs.Command.{is_journal_full};
ghost use Rattle.dam_gate.specs.Keeper.{IsPreparedFor};
ghost use Rattle.dam_gate.specs.Gate.{IsBeginFault, IsKeeperFault};
ghost use Rattle.dam_gate.specs.inside.Keeper.{SaysWhetherFull};

use crate::books::Books;
use crate::journal::Journal;
use dam_book::{
    Book, Command, DayLength, Entry, Outcome, PackedCommand, PackedEntry, Participant, Seed,
    is_journal_full,
};
use std::alloc::{AllocError, AllocFailed, Allocator, Global};
use std::marker::Model;
use std::sync::Arc;
use thiserror::Error;

/// Why a keeper doesn't take a command, in the order in which the reasons are looked for.
#[derive(Clone, Copy, PartialEq, Eq, Debug, Error)]
pub enum KeeperFault {
    /// The journal holds as many entries as it may; the last one is only for a close.
    #[error("the journal is full, with {held} entries")]
    JournalFull {
        /// The number of entries that it holds.
        held: u32,
    },
    /// Memory ran out.
    #[error("out of memory")]
    Memory,
}

impl From<AllocError> for KeeperFault {
    ghost use Rattle.std.specs.Prelude.{◌≡◌};
    ghost use Rattle.dam_gate.specs.declared.keeper.KeeperFault.TheVariants.{Memory};

    ghost from_gives = { λ _ fault. fault ≡ Memory };

    fn from(_error: AllocError) -> KeeperFault {
        KeeperFault::Memory
    }
}

/// Why a keeper or a gate isn't begun, in the order in which the reasons are looked for.
#[derive(Clone, Copy, PartialEq, Eq, Debug, Error)]
pub enum BeginFault {
    /// No delivery day has that number of periods.
    #[error("no delivery day has this number of periods")]
    BadDay,
    /// Memory ran out.
    #[error("out of memory")]
    Memory,
}

/// The book of one day and the journal of the commands that reached it, to which commands are added one by one.
///
/// A contract sees the journal, as its entries and the book, and the number of further entries for which there is room.
/// Others may share the book: a step replaces it.
#[derive(Debug, Drop)]
pub struct Keeper<A: Allocator = Global> {
    books: Books<A>,
    entries: Vec<PackedEntry<A>, A>,
}

impl<A: Allocator> Model for Keeper<A> {
    ghost use Rattle.std.specs.Prelude.{◌-◌, vec_len, vec_capacity};
    ghost use Rattle.dam_gate.specs.Journal.{IsJournal};
    ghost use Rattle.dam_gate.specs.Keeper.{KeeperState};
    ghost use Rattle.dam_gate.specs.inside.Books.{AreSteps};

    ghost Value = { KeeperState };

    ghost view = { λ k. record {
      journal = record { entries = k.entries.items; book = k.books.book };
      room = vec_capacity k.entries - vec_len k.entries;
    } };

    ghost invariant = { λ k.
        IsJournal (record { entries = k.entries.items; book = k.books.book })
        × AreSteps k.entries.items k.books };
}

/// A step of a keeper that can't fail any more: its entry, and the book after it.
#[derive(Debug, Drop)]
pub struct PreparedStep<A: Allocator = Global> {
    entry: PackedEntry<A>,
    book: Arc<Book<A>, A>,
    // the outcome that the entry's reply states, for the book before
    outcome: Outcome,
}

impl<A: Allocator> Model for PreparedStep<A> {
    ghost use Rattle.std.specs.Prelude.{◌≡◌};
    ghost use Rattle.std.specs.Arc.{arc_value};
    ghost use Rattle.dam_book.specs.Book.{reply_of};
    ghost use Rattle.dam_gate.specs.Keeper.{PreparedState};

    ghost Value = { PreparedState };

    ghost view = { λ r. record { entry = r.entry; book = arc_value r.book } };

    ghost invariant = { λ r. r.entry.reply ≡ reply_of r.outcome };
}

impl<A: Allocator> PreparedStep<A> {
    /// The entry that the step is to add.
    pub fn entry(&self) -> &PackedEntry<A>
        ensures { result.now ≡ self.now.entry }
    {
        &self.entry
    }

    /// Another handle of the book after the step.
    pub(crate) fn clone_book_handle(&self) -> Result<Arc<Book<A>, A>, AllocError>
        ensures { IfOk result (λ book. arc_value book ≡ self.now.book) }
    {
        Arc::try_clone(&self.book)
    }
}

impl<A: Allocator + Copy> Keeper<A> {
    /// The empty journal and the empty book of a day of 23, 24, 25, 92, 96 or 100 periods, on the fixed
    /// seed that everybody knows.
    pub fn begin(alloc: A, periods: u8) -> Result<Keeper<A>, BeginFault>
        ensures ok { IfOk result (λ keeper.
            (is_day periods ≡ true) × (keeper.journal ≡ empty_journal periods)) }
        ensures fault { IfErr result (IsBeginFault periods) }
    {
        let Some(periods) = DayLength::new(periods) else {
            return Err(BeginFault::BadDay);
        };
        Keeper::for_day(alloc, periods, Seed::fixed()).map_err(|_| BeginFault::Memory)
    }

    /// The empty journal and the empty book of a day of that length, which hashes names with the seed. The error is out
    /// of memory.
    pub fn for_day(alloc: A, periods: DayLength, seed: Seed) -> Result<Keeper<A>, AllocError>
        ensures { IfOk result (λ keeper. keeper.journal ≡ empty_journal periods) }
    {
        let Ok(book) = Arc::new(alloc, Book::for_day(alloc, periods, seed)) else {
            return Err(AllocError);
        };
        Ok(Keeper {
            books: Books::new(book),
            entries: Vec::new(alloc),
        })
    }

    /// `Ok` if the journal has room for a command of this giver, who is `None` for the operator. The only fault is
    /// `JournalFull`.
    pub(crate) fn check_not_full(&self, who: Option<&Participant>) -> Result<(), KeeperFault>
        ensures { SaysWhetherFull (length self.now.journal.entries) (option_copied who.entry)
            result }
    {
        let held = self.len();
        if is_journal_full(held, who) {
            return Err(KeeperFault::JournalFull { held });
        }
        Ok(())
    }

    /// Prepares the command's step for `append`: it takes all memory of the step, which is the room in the journal, and a
    /// book for the step's result, if the command changes the book. The entry takes over the command, which is decided
    /// once, for the reply, for the book after it and for the book before. A step that was prepared before still is.
    pub fn prepare(&mut self, command: PackedCommand<A>) -> Result<PreparedStep<A>, KeeperFault>
        ensures prepared { IfOk result (IsPreparedFor self.new command) }
        ensures journal { self.new.journal ≡ self.old.journal }
        ensures room { self.old.room ≤ self.new.room }
        ensures fault { IfErr result (IsKeeperFault (length self.old.journal.entries) command) }
    {
        self.check_not_full(command.participant())?;
        let number = self.len() + 1;
        self.entries.reserve(1)?;
        let unpacked = command.command();
        let outcome = self.books.book().outcome(&unpacked);
        let book = self.prepare_book_after(&unpacked, &outcome)?;
        Ok(PreparedStep {
            entry: PackedEntry::new(number, command, outcome.reply()),
            book,
            outcome,
        })
    }

    /// Prepares the book after the command: another one, or, if the command is refused, the present one.
    ///
    /// To make another one, it takes the book before the present one. If it then fails, that book is lost, and the next
    /// call copies the present one instead.
    fn prepare_book_after(
        &mut self,
        command: &Command,
        outcome: &Outcome,
    ) -> Result<Arc<Book<A>, A>, AllocError>
        requires { outcome.now ≡ refusal self.old.journal.book command.now }
        ensures book { IfOk result
            (λ book. arc_value book ≡ book_after self.old.journal.book command.now) }
        ensures same { self.new ≡ self.old }
    {
        if let Some(_) = outcome.refusal() {
            return self.books.clone_book_handle();
        }
        let mut book = self.books.take_unshared_book(&self.entries)?;
        let _done = book.carry_out(command, outcome)?;
        match Arc::new(*self.entries.allocator(), book) {
            Ok(book) => Ok(book),
            Err(_) => Err(AllocError),
        }
    }

    /// Appends the step's entry to the journal, and takes over its book. It takes no memory and can't fail.
    pub fn append(&mut self, prepared: PreparedStep<A>)
        requires { IsPreparedFor self.old prepared.entry.command prepared }
        ensures step { self.new.journal ≡ journal_after self.old.journal prepared.entry.command }
        ensures day { self.new.journal.book.periods ≡ self.old.journal.book.periods }
        ensures room { self.old.room ≡ self.new.room + 1 }
    {
        let PreparedStep {
            entry,
            book,
            outcome,
        } = prepared;
        let held = self.len();
        self.books.advance(book, &entry, held as usize, outcome);
        self.entries.push_reserved(entry);
    }

    /// Journals the command with the book's reply to it, even if the book refuses it.
    pub fn apply(&mut self, command: Command) -> Result<Entry, KeeperFault>
        ensures entry { IfOk result (λ entry. entry ≡ next_entry self.old.journal command) }
        ensures step { OnOk result (self.new.journal ≡ journal_after self.old.journal command) }
        ensures not_full { OnOk result
            (is_journal_full (length self.old.journal.entries) command ≡ false) }
        ensures err { OnErr result (self.new.journal ≡ self.old.journal) }
        ensures fault { IfErr result (IsKeeperFault (length self.old.journal.entries) command) }
    {
        self.check_not_full(command.participant())?;
        let packed = PackedCommand::of(*self.entries.allocator(), &command)?;
        let prepared = self.prepare(packed)?;
        let entry = prepared.entry().entry();
        self.append(prepared);
        Ok(entry)
    }

    /// The number of entries held.
    pub fn len(&self) -> u32
        ensures value { result ≡ length self.now.journal.entries }
        ensures valid { IsJournal self.now.journal }
    {
        self.entries.len() as u32
    }

    /// The entries, numbered from 1.
    pub fn entries(&self) -> &[PackedEntry<A>]
        ensures value { result.now ≡ self.now.journal.entries }
        ensures valid { IsJournal self.now.journal }
    {
        self.entries.as_slice()
    }

    /// The book that the commands of the entries make of the empty book of the day.
    pub fn book(&self) -> &Book<A>
        ensures value { result.now ≡ self.now.journal.book }
        ensures valid { IsJournal self.now.journal }
    {
        self.books.book()
    }

    /// Another handle of the book.
    pub(crate) fn clone_book_handle(&self) -> Result<Arc<Book<A>, A>, AllocError>
        ensures value { IfOk result (λ book. arc_value book ≡ self.now.journal.book) }
        ensures valid { IsJournal self.now.journal }
    {
        self.books.clone_book_handle()
    }

    /// Makes room for this number of further entries.
    pub(crate) fn reserve_entries(&mut self, entries: usize) -> Result<(), AllocError>
        ensures room { OnOk result (entries ≤ self.new.room) }
        ensures kept { self.old.room ≤ self.new.room }
        ensures journal { self.new.journal ≡ self.old.journal }
    {
        self.entries.reserve(entries)
    }

    pub(crate) fn into_journal(self) -> Journal<A>
        ensures { result ≡ self.journal }
    {
        let Keeper { books, entries } = self;
        Journal::new(books.into_book(), entries)
    }
}

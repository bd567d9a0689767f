//! The journal that a gate leaves: a legal history, with the book that it makes.

ghost use Rattle.std.specs.Prelude.{◌≡◌};
ghost use Rattle.std.specs.Arc.{arc_value};
ghost use Rattle.dam_gate.specs.Journal.{IsJournal};

use dam_book::{Book, DayLength, PackedEntry};
use std::alloc::{Allocator, Global};
use std::marker::Model;
use std::sync::Arc;

/// The journal that a gate leaves: its entries, and the book that they made.
///
/// A contract sees the entries and the book, as in a `Keeper`.
#[derive(Debug, Drop)]
pub struct Journal<A: Allocator = Global> {
    book: Arc<Book<A>, A>,
    entries: Vec<PackedEntry<A>, A>,
}

impl<A: Allocator> Model for Journal<A> {
    ghost use Rattle.std.specs.Arc.{arc_value};
    ghost use Rattle.dam_gate.specs.Journal.{JournalState, IsJournal};

    ghost Value = { JournalState };

    ghost view = { λ j. record { entries = j.entries.items; book = arc_value j.book } };

    ghost invariant = { λ j.
        IsJournal (record { entries = j.entries.items; book = arc_value j.book }) };
}

impl<A: Allocator + Copy> Journal<A> {
    pub(crate) fn new(book: Arc<Book<A>, A>, entries: Vec<PackedEntry<A>, A>) -> Journal<A>
        requires { IsJournal (record { entries = entries.items; book = arc_value book }) }
        ensures { result ≡ record { entries = entries.items; book = arc_value book } }
    {
        Journal { book, entries }
    }

    /// The number of periods of the delivery day.
    pub fn periods(&self) -> DayLength
        ensures { result ≡ self.now.book.periods }
    {
        self.book.periods()
    }

    /// The entries, numbered from 1.
    pub fn entries(&self) -> &[PackedEntry<A>]
        ensures value { result.now ≡ self.now.entries }
        ensures valid { IsJournal self.now }
    {
        &self.entries
    }

    /// The book that the commands of the entries make of the empty book of the day.
    pub fn book(&self) -> &Book<A>
        ensures value { result.now ≡ self.now.book }
        ensures valid { IsJournal self.now }
    {
        &self.book
    }
}

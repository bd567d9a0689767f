//! A book with the history that made it, and the slot in which looks find it.

ghost use Rattle.std.specs.Prelude.{◌≡◌, IfOk};
ghost use Rattle.std.specs.Arc.{arc_value};
ghost use Rattle.dam_gate.specs.Journal.{IsJournal};
ghost use Rattle.dam_gate.specs.inside.Shown.{IsNoteOf, slot_name};

use crate::history::History;
use crate::opening::GateName;
use dam_book::Book;
use left_right::Absorb;
use once_cell::race::{Note as CellNote, OnceBox};
use std::alloc::{AllocError, Global};
use std::marker::Model;
use std::sync::Arc;

/// The book after some number of entries. A contract sees the entries and the book.
#[derive(Drop)]
pub(crate) struct Version<J: GateName> {
    book: Arc<Book, Global>,
    history: History<J>,
}

impl<J: GateName> Model for Version<J> {
    ghost use Rattle.std.specs.Prelude.{◌≡◌};
    ghost use Rattle.std.specs.Arc.{arc_value};
    ghost use Rattle.dam_gate.specs.Journal.{JournalState, IsJournal};

    ghost Value = { JournalState };

    ghost view = { λ v. record { entries = v.history; book = arc_value v.book } };

    ghost invariant = { λ v. IsJournal (record { entries = v.history; book = arc_value v.book })
        × ((arc_value v.book).periods ≡ J.opening.periods) };
}

impl<J: GateName> Version<J> {
    pub(crate) fn new(book: Arc<Book, Global>, history: History<J>) -> Version<J>
        requires journal { IsJournal (record { entries = history; book = arc_value book }) }
        requires day { (arc_value book).periods ≡ J.opening.periods }
        ensures { result ≡ record { entries = history; book = arc_value book } }
    {
        Version { book, history }
    }

    pub(crate) fn history(&self) -> &History<J>
        ensures value { result.now ≡ self.now.entries }
        ensures valid { IsJournal self.now }
        ensures day { self.now.book.periods ≡ J.opening.periods }
    {
        &self.history
    }

    pub(crate) fn book(&self) -> &Book
        ensures { result.now ≡ self.now.book }
    {
        &self.book
    }
}

/// The slot in which looks find a version. A call makes an empty one, and puts its version there later.
pub(crate) type Slot<J> = Arc<OnceBox<Version<J>>, Global>;

/// A new slot with the version in it, and the note of the slot's cell, which shows that it is there.
pub(crate) fn filled_slot<J: GateName>(
    alloc: Global,
    version: Box<Version<J>>,
) -> Result<(Slot<J>, CellNote<Version<J>>), AllocError>
    ensures { IfOk result (λ filled. IsNoteOf (slot_name filled.0) version.value filled.1) }
{
    let slot = Arc::new(alloc, OnceBox::new(alloc))?;
    let mut note = slot.note();
    // A new slot is empty, though no clause of `OnceBox` says so.
    if slot.set_as(version, &mut note).is_err() {
        return Err(AllocError);
    }
    Ok((slot, note))
}

/// One of the two copies that `left_right` keeps: the slot of a version.
#[derive(Drop)]
pub struct Shown<J: GateName> {
    pub(crate) slot: Slot<J>,
}

/// The slot of the version that is to be shown next.
#[derive(Drop)]
pub struct NextShown<J: GateName> {
    pub(crate) slot: Slot<J>,
}

impl<J: GateName> Absorb<NextShown<J>> for Shown<J> {
    ghost use Rattle.std.specs.Prelude.{◌≡◌};
    ghost use Rattle.dam_gate.specs.inside.Shown.{slot_name};

    /// The name of the slot's cell. No other cell has it.
    type State = u64;

    ghost state = { λ shown. slot_name shown.slot };

    ghost applied = { λ _ change. slot_name change.slot };

    fn absorb_first(
        &mut self,
        operation: &NextShown<J>,
        _other: &Shown<J>,
    ) -> Result<(), AllocError> {
        self.slot = Arc::try_clone(&operation.slot)?;
        Ok(())
    }

    fn absorb_second(
        &mut self,
        operation: NextShown<J>,
        _other: &Shown<J>,
    ) -> Result<(), NextShown<J>> {
        let NextShown { slot } = operation;
        self.slot = slot;
        Ok(())
    }
}

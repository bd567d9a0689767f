//! The book of a keeper, and the one before it, which the next step uses again so that it copies none.

ghost use Rattle.std.specs.Prelude.{◌≡◌, ◌++◌, ◌∷◌, [], length, None, Some, IfOk, IsSome};
ghost use Rattle.std.specs.Arc.{arc_value};
ghost use Rattle.dam_book.specs.Book.{book_after, refusal};
ghost use Rattle.dam_gate.specs.inside.Books.{AreSteps};

use dam_book::{Book, Outcome, PackedEntry};
use std::alloc::{AllocError, Allocator, Global};
use std::marker::Model;
use std::mem::replace;
use std::sync::Arc;

/// An earlier book, the place in the journal of the entry whose command changed it, and the outcome decided on it.
#[derive(Debug, Drop)]
struct Earlier<A: Allocator> {
    book: Arc<Book<A>, A>,
    place: usize,
    outcome: Outcome,
}

impl<A: Allocator> Model for Earlier<A> {
    ghost use Rattle.std.specs.Arc.{arc_value};
    ghost use Rattle.dam_gate.specs.inside.Books.{EarlierState};

    ghost Value = { EarlierState };

    ghost view = { λ s. record { book = arc_value s.book; place = s.place; outcome = s.outcome } };
}

/// A book that others may share, and the one before it with the place of the command that changed it. If the earlier
/// one isn't shared any more, the command that it lacks is carried out in it as it was in the other, which makes the
/// two equal. That is far quicker than a copy, and the command isn't decided again.
///
/// A contract sees the two.
#[derive(Debug, Drop)]
pub(crate) struct Books<A: Allocator = Global> {
    before: Option<Earlier<A>>,
    book: Arc<Book<A>, A>,
}

impl<A: Allocator> Model for Books<A> {
    ghost use Rattle.std.specs.Arc.{arc_value};
    ghost use Rattle.dam_gate.specs.inside.Books.{BooksState};

    ghost Value = { BooksState };

    ghost view = { λ b. record { book = arc_value b.book; before = b.before } };
}

impl<A: Allocator + Copy> Books<A> {
    pub(crate) fn new(book: Arc<Book<A>, A>) -> Books<A>
        ensures book { result.book ≡ arc_value book }
        ensures steps { (entries : _) → AreSteps entries result }
    {
        Books { before: None, book }
    }

    pub(crate) fn book(&self) -> &Book<A>
        ensures { result.now ≡ self.now.book }
    {
        &self.book
    }

    /// Another handle of the book.
    pub(crate) fn clone_book_handle(&self) -> Result<Arc<Book<A>, A>, AllocError>
        ensures { IfOk result (λ book. arc_value book ≡ self.now.book) }
    {
        Arc::try_clone(&self.book)
    }

    /// An equal book that isn't shared: the one before it, if nobody shares that any more, or else a copy.
    pub(crate) fn take_unshared_book(
        &mut self,
        entries: &[PackedEntry<A>],
    ) -> Result<Book<A>, AllocError>
        requires { AreSteps entries.now self.old }
        ensures book { IfOk result (λ book. book ≡ self.old.book) }
        ensures same { self.new.book ≡ self.old.book }
        ensures steps { AreSteps entries.now self.new }
    {
        if let Some(earlier) = self.before.take() {
            let Earlier {
                book,
                place,
                outcome,
            } = earlier;
            if let Some(entry) = entries.get(place) {
                if let Ok(mut book) = Arc::try_unwrap(book) {
                    let _done = book.carry_out(&entry.command().command(), &outcome)?;
                    return Ok(book);
                }
            }
        }
        self.book.try_copy()
    }

    /// Goes on to the book after the entry's command, if the command changed it. The entry is the next of the journal,
    /// at this place.
    pub(crate) fn advance(
        &mut self,
        book: Arc<Book<A>, A>,
        entry: &PackedEntry<A>,
        place: usize,
        outcome: Outcome,
    )
        requires outcome { outcome ≡ refusal self.old.book entry.now.command }
        requires book { arc_value book ≡ book_after self.old.book entry.now.command }
        ensures book { self.new.book ≡ book_after self.old.book entry.now.command }
        ensures steps { (entries : _) → length entries ≡ place → AreSteps entries self.old
            → AreSteps (entries ++ entry.now ∷ []) self.new }
        ensures before { outcome ≡ None → self.new.before
            ≡ Some (record { book = self.old.book; place = place; outcome = None }) }
        ensures kept { IsSome outcome → self.new.before ≡ self.old.before }
    {
        if let Some(_) = outcome.refusal() {
            return;
        }
        let before = Earlier {
            book: replace(&mut self.book, book),
            place,
            outcome,
        };
        let _oldest = replace(&mut self.before, Some(before));
    }

    pub(crate) fn into_book(self) -> Arc<Book<A>, A>
        ensures { arc_value result ≡ self.book }
    {
        let Books { book, .. } = self;
        book
    }
}

//! A worker takes each piece and offers each welfare by one atomic operation, for which its view accounts.

ghost use Rattle.std.specs.Prelude.{◌≡◌, ◌<◌, ◌≤◌, length, [], ◌∷◌, ◌++◌, None, IfSome};
ghost use Rattle.atomic_table.specs.Seated.{TableId};
ghost use Rattle.dam_search.specs.declared.view.View.{View};
ghost use Rattle.dam_search.specs.Words.{view_of, first_view, view_after_split, split_off_view, joined_view, standing};

use crate::incumbent::Incumbent;
use crate::words::{
    CLAIM, DrawPiece, INCUMBENT, JoinSeats, OfferWelfare, ReadIncumbent, Seat, SplitSeat, Words,
};

/// A worker's seat at the two words of a search: it draws pieces, and it is the incumbent that prunes the worker's
/// pieces. A contract sees its knowledge as `view_of seat`.
///
/// In the program [`search`](crate::search) alone makes seats: it splits one for each worker off the first
/// one, joins all of them into it after their work, and closes the words with it. A test that makes them by
/// hand has the same duty: a seat that is dropped instead of joined is missing at the close, which asks for
/// all of them. And a seat that drew past the last piece draws no more.
///
/// A draw is one `fetch_add`, a read one load and an offer one `fetch_max`, all of them sequentially
/// consistent. That is enough, because the operations on both words then have one order, and each of
/// them keeps the rule of the words. The words pass nothing else from thread to thread. The problem and
/// its bounds were there before the threads began, and a thread's answers are read when it has ended.
#[derive(Drop)]
pub(crate) struct WorkerSeat<'a> {
    words: &'a Words,
    /// The right to operate on the words, and its knowledge of them.
    pub(crate) seat: Seat,
    pieces: u32,
    ghost seated: { seat.table_id ≡ words.now.shared.table_id },
    ghost two_words: { words.now.shared.table_id.words ≡ 2 },
    ghost counted: { pieces ≡ (view_of seat).pieces },
    ghost alive: { 0 < (view_of seat).seats },
    ghost empty: { seat.me.1 ≡ [] },
}

impl<'a> WorkerSeat<'a> {
    /// The first seat of the words.
    pub(crate) fn new(words: &'a Words, seat: Seat, pieces: u32) -> WorkerSeat<'a>
        requires seat { seat.table_id ≡ words.now.shared.table_id }
        requires words { words.now.shared.table_id.words ≡ 2 }
        requires view { seat.me ≡ (first_view pieces, []) }
        ensures { result.seat ≡ seat }
    {
        WorkerSeat {
            words,
            seat,
            pieces,
        }
    }

    /// A new seat for a worker, which has drawn, read and offered nothing.
    pub(crate) fn split(&mut self) -> WorkerSeat<'a>
        requires { 0 < (view_of self.old.seat).seats_left }
        ensures table { self.new.seat.table_id ≡ self.old.seat.table_id }
        ensures same { result.seat.table_id ≡ self.old.seat.table_id }
        ensures after { view_of self.new.seat ≡ view_after_split (view_of self.old.seat) }
        ensures split_off { view_of result.seat ≡ split_off_view (view_of self.old.seat) }
    {
        let seat = self.words.shared.split_seat::<SplitSeat>(&mut self.seat);
        WorkerSeat {
            words: self.words,
            seat,
            pieces: self.pieces,
        }
    }

    /// Takes in a worker's seat, with all that it drew, read and offered.
    pub(crate) fn join(&mut self, other: WorkerSeat<'a>)
        requires { other.seat.table_id ≡ self.old.seat.table_id }
        ensures table { self.new.seat.table_id ≡ self.old.seat.table_id }
        ensures view { view_of self.new.seat
            ≡ joined_view (view_of self.old.seat) (view_of other.entry.seat) }
    {
        let seat = other.into_seat();
        self.words
            .shared
            .join_seat::<JoinSeats>(&mut self.seat, seat);
    }

    /// The right to operate on the words, for the close.
    pub(crate) fn into_seat(self) -> Seat
        ensures { result ≡ self.entry.seat }
    {
        let WorkerSeat {
            words: _,
            seat,
            pieces: _,
        } = self;
        seat
    }

    /// The number of pieces.
    pub(crate) fn piece_count(&self) -> u32
        ensures { result ≡ (view_of self.now.seat).pieces }
    {
        self.pieces
    }

    /// Draws the next piece that nobody has drawn, or `None` past the last one. Takes no memory, and
    /// waits for nobody.
    pub(crate) fn draw(&mut self) -> Option<u32>
        requires { (view_of self.old.seat).draws_past_the_end ≡ 0 }
        ensures table { self.new.seat.table_id ≡ self.old.seat.table_id }
        ensures piece { IfSome result (λ piece. (piece < (view_of self.old.seat).pieces)
            × (view_of self.new.seat ≡ record (view_of self.old.seat) {
              drawn = (view_of self.old.seat).drawn ++ piece ∷ [];
            })) }
        ensures draws_past_the_end { result ≡ None
            → view_of self.new.seat
            ≡ record (view_of self.old.seat) { draws_past_the_end = 1 } }
        ensures few { length (view_of self.new.seat).drawn ≤ (view_of self.new.seat).pieces }
    {
        let next = self
            .words
            .shared
            .fetch_add::<DrawPiece>(&mut self.seat, CLAIM, 1);
        if next < u64::from(self.pieces) {
            Some(next as u32)
        } else {
            None
        }
    }
}

impl Incumbent for WorkerSeat<'_> {
    ghost greatest_read = { λ s. (view_of s.seat).greatest_read };

    ghost greatest_offer = { λ s. (view_of s.seat).greatest_offer };

    ghost Kept = { View × TableId };

    ghost kept = { λ s. (standing (view_of s.seat), s.seat.table_id) };

    fn read(&mut self) -> u64 {
        self.words
            .shared
            .load::<ReadIncumbent>(&mut self.seat, INCUMBENT)
    }

    fn offer(&mut self, welfare: u64) {
        self.words
            .shared
            .fetch_max::<OfferWelfare>(&mut self.seat, INCUMBENT, welfare);
    }
}

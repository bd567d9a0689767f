//! The two words that the workers of a search share, and the rule that every operation on them keeps.
//!
//! The claim word counts the draws, of pieces and past the last one; the incumbent word is the greatest
//! welfare that was offered. `NOTES.md` has the rule in words and a drawing.
ghost use Rattle.std.specs.Prelude.{◌≡◌, ◌+◌, ◌≤◌, [], ◌∷◌, IfOk};
ghost use Rattle.dam_search.specs.Words.{most_pieces, most_seats, AreWords, IsDrawn, IsIncumbentRead, IsOffered};
ghost use Rattle.dam_search.specs.Words.{view_of, first_view, spent_view, view_after_split, split_off_view, joined_view, AreClosedWords};

use crate::view::View;
use atomic_table::{Join, Play, Split, Table, TableRule};
use std::alloc::{AllocError, Global};

/// The place of the claim word.
pub(crate) const CLAIM: usize = 0;

/// The place of the incumbent word.
pub(crate) const INCUMBENT: usize = 1;

/// The rule of the two words; the key of the table is the number of pieces.
pub(crate) struct WordRule;

impl TableRule<(), View, u64> for WordRule {
    ghost holds = { AreWords };

    ghost first = { first_view };
}

/// The two words.
pub(crate) type Words = Table<(), View, u64, WordRule, Global>;

/// The right of one thread to operate on the words, with its knowledge of them.
pub(crate) type Seat = atomic_table::Seat<(), View>;

/// A draw: 1 is added to the claim word.
pub(crate) struct DrawPiece;

impl Play<(), View> for DrawPiece {
    ghost then = { λ _. IsDrawn };
}

/// A load of the incumbent word.
pub(crate) struct ReadIncumbent;

impl Play<(), View> for ReadIncumbent {
    ghost then = { λ _. IsIncumbentRead };
}

/// The incumbent word becomes the greater of itself and the offer.
pub(crate) struct OfferWelfare;

impl Play<(), View> for OfferWelfare {
    ghost then = { IsOffered };
}

/// A new seat is split off.
pub(crate) struct SplitSeat;

impl Split<View> for SplitSeat {
    ghost left = { view_after_split };

    ghost right = { split_off_view };
}

/// A seat is joined into another.
pub(crate) struct JoinSeats;

impl Join<View> for JoinSeats {
    ghost both = { joined_view };

    ghost spent = { spent_view };
}

/// The two words of a search of this number of pieces, both 0, and their first seat.
pub(crate) fn new_words(alloc: Global, pieces: u32) -> Result<(Words, Seat), AllocError>
    requires { pieces ≤ most_pieces }
    ensures words { IfOk result (λ made. (made.0.shared.table_id.words ≡ 2)
        × (made.0.shared.table_id.slots ≡ 0) × (made.0.shared.key ≡ pieces)) }
    ensures seat { IfOk result (λ made. (made.1.table_id ≡ made.0.shared.table_id)
        × (made.1.me ≡ (first_view pieces, []))) }
{
    Table::of_words(alloc, &[0, 0], &u64::from(pieces))
}

/// The contents of the two words at the close.
#[derive(Clone, Copy, PartialEq, Eq, Debug)]
pub(crate) struct ClosedWords {
    /// The number of draws.
    pub(crate) draws: u64,
    /// The greatest welfare that was offered.
    pub(crate) offered: u64,
}

/// Closes the words, of which this seat is the only one left.
pub(crate) fn close_words(words: Words, seat: Seat) -> ClosedWords
    requires seat { seat.table_id ≡ words.shared.table_id }
    requires words { (words.shared.table_id.words ≡ 2) × (words.shared.table_id.slots ≡ 0) }
    requires all { (view_of seat).seats + (view_of seat).seats_left ≡ most_seats }
    ensures { AreClosedWords words.shared.key (result.draws ∷ result.offered ∷ [])
        (view_of seat) }
{
    let closed = words.close_with(seat);
    let draws = closed.word(CLAIM);
    let offered = closed.word(INCUMBENT);
    closed.free();
    ClosedWords { draws, offered }
}

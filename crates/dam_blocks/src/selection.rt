//! A set of places as the bits of one number.

ghost use Rattle.std.specs.Prelude.{◌≡◌, ◌↔◌, ◌<◌, ◌≤◌, ◌^◌, true, not, IsTrue, length, slice_set};
ghost use Rattle.dam_book.specs.Limits.{most_blocks};
ghost use Rattle.dam_blocks.specs.Selection.{accepts, padded, empty_selection, choice, Meets};

use dam_book::MOST_BLOCKS;
use std::marker::Model;

/// A set of places under `MOST_BLOCKS`, for the blocks of a problem, counted from 0 in book order. Whether a block
/// stands at each is for the problem to say.
///
/// A contract sees the list of its acceptances, one for each place that a block of a book may have.
#[derive(Clone, Copy, PartialEq, Eq, Debug)]
pub struct Selection {
    /// The bit of weight 2 to the power i is 1 if the block at place i is accepted.
    accepted: u32,
}

impl Model for Selection {
    ghost use Rattle.std.specs.Prelude.{List, Bool};

    ghost Value = { List Bool };

    ghost use Rattle.dam_blocks.specs.inside.Bits.{flags_of, with_flags, IsSet, same_flags};

    ghost view = { flags_of };

    ghost invariant = { IsSet };

    ghost inverse = { with_flags };

    ghost inverse_ok = { same_flags };
}

/// The number of choices over this number of places.
pub(crate) fn choice_count(count: usize) -> u32
    requires { count ≤ most_blocks }
    ensures { result ≡ 2 ^ count }
{
    1 << count
}

impl Selection {
    /// The selection that accepts no block.
    pub fn none() -> Selection
        ensures { result ≡ empty_selection }
    {
        Selection { accepted: 0 }
    }

    /// The selection with the block at this place accepted too.
    pub fn with(mut self, place: usize) -> Selection
        requires { place < most_blocks }
        ensures { result ≡ slice_set self place true }
    {
        self.accepted |= 1 << place;
        self
    }

    /// The selection with the decision on the block at this place reversed.
    pub fn reversed(mut self, place: usize) -> Selection
        requires { place < most_blocks }
        ensures { result ≡ slice_set self place (not (accepts self place)) }
    {
        self.accepted ^= 1 << place;
        self
    }

    /// Whether the block at this place is accepted. A selection has a place for each block that
    /// a book may have; no place past the last is accepted.
    pub fn has(self, place: usize) -> bool
        ensures value { result ≡ accepts self place }
        ensures places { length self ≡ most_blocks }
    {
        place < MOST_BLOCKS && (self.accepted >> place) & 1 == 1
    }

    /// Whether both accept the block at some place.
    pub fn meets(self, other: Selection) -> bool
        ensures { IsTrue result ↔ Meets self other }
    {
        self.accepted & other.accepted != 0
    }

    /// The invariant of a selection, for proofs: the call computes nothing. A selection has a place for each block that a
    /// book may have.
    pub(crate) fn use_invariant(self)
        ensures { length self ≡ most_blocks }
    {
        let _bits = self.accepted; // for the proof: the invariant of a selection
    }

    /// The choice of this number over the first `count` places. There are 2 to the power `count` choices:
    /// the first half of them accepts the first place, and so on within each half.
    pub fn choice(count: usize, number: u32) -> Selection
        requires count { count ≤ most_blocks }
        requires number { number < 2 ^ count }
        ensures { result ≡ padded (choice count number) }
    {
        let mut selection = Selection::none();
        let mut rest = number;
        for place in 0..count {
            let half = choice_count(count - 1 - place);
            if rest < half {
                selection = selection.with(place);
            } else {
                rest -= half;
            }
        }
        selection
    }
}

/// A selection and a welfare.
///
/// The type doesn't constrain them; the function that returns one states its meaning.
#[derive(Clone, Copy, PartialEq, Eq, Debug)]
pub struct Solution {
    /// The accepted blocks.
    pub selection: Selection,
    /// The welfare, in cents per MWh times tenths of a MW.
    pub welfare: u64,
}

//! The numbers that the rule of the words knows of a seat. They exist only in proofs.

ghost use Rattle.std.specs.Prelude.{ℕ, List};
ghost use Rattle.std.specs.Borrow.{ftrue};

use std::marker::Model;

/// The knowledge of a seat. A value of it is never made: it exists only in proofs.
pub struct View {
    /// The number of pieces.
    pub ghost pieces: { ℕ },

    /// The pieces that it drew, in the order of its draws.
    pub ghost drawn: { List ℕ },

    /// The number of its draws past the last piece.
    pub ghost draws_past_the_end: { ℕ },

    /// Itself and the seats that were joined into it.
    pub ghost seats: { ℕ },

    /// The number of seats that may still be split off it.
    pub ghost seats_left: { ℕ },

    /// The greatest welfare that it offered, 0 if it offered none.
    pub ghost greatest_offer: { ℕ },

    /// The greatest value that it read, 0 if it read none.
    pub ghost greatest_read: { ℕ },
}

impl Model for View {
    ghost also_owns = { λ _. ftrue };
}

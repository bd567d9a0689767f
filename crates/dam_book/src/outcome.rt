//! The decision on a command. It is made once, and then carried out without a second look-up.

ghost use Rattle.std.specs.Prelude.{◌≡◌, None, Some};
ghost use Rattle.dam_book.specs.Book.{reply_of};

use crate::command::Reply;
use crate::order::Order;
use crate::reason::Reason;
use std::marker::Model;

/// The outcome of a command, as `Book::outcome` decides it: the book refuses it for a reason, or carries it out.
///
/// A contract sees the reason, if there is one. It doesn't see the place at which the order of an amend or a cancel was
/// found: the place saves `Book::carry_out` a look-up, and the same order is changed without it.
#[derive(Debug, Drop)]
pub struct Outcome {
    refusal: Option<Reason>,
    place: usize,
}

impl Model for Outcome {
    ghost use Rattle.std.specs.Prelude.{Option};
    ghost use Rattle.dam_book.specs.declared.reason.Reason.{Reason};

    ghost Value = { Option Reason };

    ghost view = { λ o. o.refusal };
}

impl Outcome {
    /// The reply to the command.
    pub fn reply(&self) -> Reply
        ensures { result ≡ reply_of self.now }
    {
        match self.refusal {
            None => Reply::Done,
            Some(reason) => Reply::Refused(reason),
        }
    }

    /// Why the command is refused and the book is left unchanged; `None` if the command is carried out.
    pub fn refusal(&self) -> Option<Reason>
        ensures { result ≡ self.now }
    {
        self.refusal
    }

    // `named` is the order with the command's participant and name, with its place in the book's map.
    pub(crate) fn new(refusal: Option<Reason>, named: Option<(usize, &Order)>) -> Outcome
        ensures { result ≡ refusal }
    {
        let place = match named {
            Some((place, _)) => place,
            None => 0,
        };
        Outcome { refusal, place }
    }

    // The place in the book's map, gaps counted, at which the order was found.
    pub(crate) fn likely_place(&self) -> usize {
        self.place
    }
}

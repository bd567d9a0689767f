//! A pass after its gate has finished: the record that a settlement compares with the journal.

ghost use Rattle.std.specs.Prelude.{◌≡◌};
ghost use Rattle.dam_gate.specs.Pass.{IsAccount};

use dam_book::{PackedEntry, Participant};
use std::marker::Model;

/// The record of a pass after its day: its holder, how many entries of the journal it had seen, and a receipt of each
/// of its own commands that reached the book, in the order of its calls.
///
/// A contract sees the holder, the number seen and the receipts.
#[derive(Debug, Drop)]
pub struct Account {
    holder: Option<Participant>,
    seen: u32,
    receipts: Vec<PackedEntry>,
}

impl Model for Account {
    ghost use Rattle.dam_gate.specs.Pass.{AccountState, IsAccount};

    ghost Value = { AccountState };

    ghost view = { λ p. record { holder = p.holder; seen = p.seen; receipts = p.receipts.items } };

    ghost invariant = { λ p.
        IsAccount (record { holder = p.holder; seen = p.seen; receipts = p.receipts.items }) };
}

impl Account {
    pub(crate) fn new(holder: Option<Participant>, seen: u32, receipts: Vec<PackedEntry>) -> Account
        requires { IsAccount (record { holder = holder; seen = seen; receipts = receipts.items }) }
        ensures { result ≡ record { holder = holder; seen = seen; receipts = receipts.items } }
    {
        Account {
            holder,
            seen,
            receipts,
        }
    }

    /// The participant that held the pass; `None` for the operator's pass.
    pub fn holder(&self) -> Option<Participant>
        ensures { result ≡ self.now.holder }
    {
        self.holder.as_ref().map(|who| who.copy())
    }

    /// The number of entries of the journal that it had seen.
    pub fn seen(&self) -> u32
        ensures { result ≡ self.now.seen }
    {
        self.seen
    }

    /// The entries that its calls were answered with, by increasing number.
    pub fn receipts(&self) -> &[PackedEntry]
        ensures value { result.now ≡ self.now.receipts }
        ensures valid { IsAccount self.now }
    {
        &self.receipts
    }
}

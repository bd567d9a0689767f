//! The settlement of a closed journal: each entry is the receipt of one call, and each receipt is an entry.

ghost use Rattle.std.specs.Prelude.{◌≡◌, true, IfOk, IfErr};
ghost use Rattle.dam_gate.specs.Settled.{IsMismatch, IsSettled};
ghost use Rattle.dam_gate.specs.Headline.{IsWholeAccount};

use crate::account::Account;
use crate::journal::Journal;
use crate::laws::whole_account;
use crate::tally::Tally;
use std::alloc::{Allocator, Global};
use std::marker::Model;
use thiserror::Error;

/// Why a journal and accounts aren't settled: that the book is open, or else the least faulty number over all receipts,
/// with its fault.
#[derive(Clone, Copy, PartialEq, Eq, Debug, Error)]
pub enum Mismatch {
    /// The book isn't closed.
    #[error("the book is still open")]
    StillOpen,
    /// The entry of this number has no receipt.
    #[error("entry {0} has no receipt")]
    Missing(u32),
    /// The entry of this number has two receipts or more.
    #[error("entry {0} has more than one receipt")]
    Doubled(u32),
    /// The entry of this number has one receipt, which isn't equal to it.
    #[error("the receipt of entry {0} differs from it")]
    Differs(u32),
    /// There is a receipt of this number, and no entry.
    #[error("there is a receipt {0}, and no such entry")]
    Extra(u32),
    /// Memory ran out.
    #[error("out of memory")]
    Memory,
}

/// A journal whose entries are the receipts of the accounts, each once.
///
/// A contract sees the entries and the book, which is closed.
#[derive(Debug, Drop)]
pub struct Settled<A: Allocator = Global> {
    journal: Journal<A>,
}

impl<A: Allocator> Model for Settled<A> {
    ghost use Rattle.std.specs.Prelude.{◌≡◌, true};
    ghost use Rattle.dam_gate.specs.Journal.{JournalState};

    ghost Value = { JournalState };

    ghost view = { λ s. s.journal };

    ghost invariant = { λ s. s.journal.book.closed ≡ true };
}

impl<A: Allocator> Settled<A> {
    /// The journal that was given.
    pub fn journal(&self) -> &Journal<A>
        ensures value { result.now ≡ self.now }
        ensures closed { self.now.book.closed ≡ true }
    {
        &self.journal
    }
}

/// A journal that isn't settled with the accounts, given back with the reason.
#[derive(Debug, Drop)]
pub struct Unsettled<A: Allocator = Global> {
    /// The first mismatch, or that memory ran out.
    pub why: Mismatch,
    /// The journal, unchanged.
    pub journal: Journal<A>,
}

/// Compares the receipts of the accounts with the entries of a closed journal: each entry needs just one receipt, equal
/// to it, and no receipt may have another number. A journal that comes out settled accounts for its whole day.
///
/// It goes once over the receipts and once over the entries, and takes a byte of memory for each entry.
pub fn settle<A: Allocator + Copy, B: Allocator>(
    alloc: B,
    journal: Journal<A>,
    accounts: &[Account],
) -> Result<Settled<A>, Unsettled<A>>
    ensures journal { IfOk result (λ settled. settled ≡ journal) }
    ensures settled { IfOk result (λ settled. IsSettled settled accounts.now) }
    ensures account { IfOk result (λ settled. IsWholeAccount settled accounts.now) }
    ensures back { IfErr result (λ unsettled. unsettled.journal ≡ journal) }
    ensures why { IfErr result (λ unsettled. IsMismatch journal accounts.now unsettled.why) }
    ensures exact { IsSettled journal accounts.now
        → IfErr result (λ unsettled. unsettled.why ≡ Mismatch.Memory) }
{
    if !journal.book().is_closed() {
        return Err(Unsettled {
            why: Mismatch::StillOpen,
            journal,
        });
    }
    let entries = journal.entries();
    let Ok(tally) = Tally::of(alloc, entries, accounts) else {
        return Err(Unsettled {
            why: Mismatch::Memory,
            journal,
        });
    };
    match tally.first_mismatch(entries) {
        None => {
            let settled = Settled { journal };
            whole_account(&settled, accounts);
            Ok(settled)
        }
        Some(why) => Err(Unsettled { why, journal }),
    }
}

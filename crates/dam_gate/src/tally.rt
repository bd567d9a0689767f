//! The receipts of each entry, counted in one pass over the accounts, so that a settlement doesn't search.

ghost use Rattle.std.specs.Prelude.{◌≡◌, ◌<◌, ◌≤◌, ◌^◌, ◌++◌, ◌∷◌, [], ℕ, List, length, IfOk};
ghost use Rattle.dam_book.specs.Book.{IsLegalHistory};
ghost use Rattle.dam_book.specs.declared.command.Entry.{Entry};
ghost use Rattle.dam_book.specs.Limits.{most_entries};
ghost use Rattle.dam_gate.specs.Pass.{AreInOrder};
ghost use Rattle.dam_gate.specs.Settled.{receipts_of};
ghost use Rattle.dam_gate.specs.inside.Tally.{IsFirstMismatch, IsTally, first_mismatch_in_marks, mark_with, lesser};

use crate::account::Account;
use crate::settlement::Mismatch;
use dam_book::PackedEntry;
use std::alloc::{AllocError, Allocator};

/// The count of the receipts of an entry's number so far.
#[derive(Clone, Copy)]
pub(crate) enum Mark {
    Nothing,
    /// One receipt, equal to the entry.
    Same,
    /// One receipt, unequal to the entry.
    Other,
    Several,
}

impl Mark {
    /// The count with one more receipt, which is the entry or isn't.
    fn with(self, same: bool) -> Mark
        ensures { result ≡ mark_with self same }
    {
        match (self, same) {
            (Mark::Nothing, true) => Mark::Same,
            (Mark::Nothing, false) => Mark::Other,
            (Mark::Same | Mark::Other | Mark::Several, _) => Mark::Several,
        }
    }
}

/// A count of receipts next to the entries that they should be.
#[derive(Drop)]
pub(crate) struct Tally<A: Allocator> {
    // by the place of the entry
    found: Vec<Mark, A>,
    // the least number of a receipt that no entry has
    extra: Option<u32>,
}

fn lesser(extra: Option<u32>, number: u32) -> Option<u32>
    ensures { result ≡ lesser extra number }
{
    match extra {
        None => Some(number),
        Some(least) => Some(least.min(number)),
    }
}

impl<A: Allocator> Tally<A> {
    /// The tally of no receipts.
    fn new<B: Allocator>(alloc: A, entries: &[PackedEntry<B>]) -> Result<Tally<A>, AllocError>
        ensures as_long { IfOk result (λ tally. length tally.found.items ≡ length entries.now) }
        ensures tally { IfOk result (λ tally.
            IsTally entries.now tally.found.items tally.extra []) }
    {
        let found = vec![in alloc; Mark::Nothing; entries.len()]?;
        Ok(Tally { found, extra: None })
    }

    /// Counts one receipt.
    fn count<B: Allocator>(&mut self, entries: &[PackedEntry<B>], receipt: &PackedEntry)
        requires positive { 0 < receipt.now.number }
        requires as_long { length self.old.found.items ≡ length entries.now }
        ensures as_long { length self.new.found.items ≡ length entries.now }
        ensures tally { (before : List Entry)
            → IsTally entries.now self.old.found.items self.old.extra before
            → IsTally entries.now self.new.found.items self.new.extra
            (before ++ receipt.now ∷ []) }
    {
        let number = receipt.number();
        let place = number as usize - 1;
        match entries.get(place) {
            Some(entry) => self.found[place] = self.found[place].with(receipt.equals(entry)),
            None => self.extra = lesser(self.extra, number),
        }
    }

    /// Counts the receipts of one account.
    fn count_account<B: Allocator>(&mut self, entries: &[PackedEntry<B>], receipts: &[PackedEntry])
        requires positive { (seen : ℕ) × AreInOrder 0 seen receipts.now }
        requires as_long { length self.old.found.items ≡ length entries.now }
        ensures as_long { length self.new.found.items ≡ length entries.now }
        ensures tally { (before : List Entry)
            → IsTally entries.now self.old.found.items self.old.extra before
            → IsTally entries.now self.new.found.items self.new.extra (before ++ receipts.now) }
    {
        for receipt in receipts {
            self.count(entries, receipt);
        }
    }

    /// The tally of the receipts of all accounts.
    pub(crate) fn of<B: Allocator>(
        alloc: A,
        entries: &[PackedEntry<B>],
        accounts: &[Account],
    ) -> Result<Tally<A>, AllocError>
        ensures as_long { IfOk result (λ tally. length tally.found.items ≡ length entries.now) }
        ensures tally { IfOk result (λ tally.
            IsTally entries.now tally.found.items tally.extra (receipts_of accounts.now)) }
    {
        let mut tally = Tally::new(alloc, entries)?;
        for account in accounts {
            tally.count_account(entries, account.receipts());
        }
        Ok(tally)
    }

    /// The least number whose receipts aren't its entry, with its mismatch.
    pub(crate) fn first_mismatch<B: Allocator>(
        &self,
        entries: &[PackedEntry<B>],
    ) -> Option<Mismatch>
        requires legal { (periods : ℕ) × IsLegalHistory periods entries.now }
        requires few { length self.now.found.items ≤ most_entries }
        ensures { (receipts : List Entry)
            → IsTally entries.now self.now.found.items self.now.extra receipts
            → IsFirstMismatch entries.now receipts result }
    {
        if let Some(mismatch) = first_mismatch_in_marks(&self.found) {
            return Some(mismatch);
        }
        match self.extra {
            None => None,
            Some(number) => Some(Mismatch::Extra(number)),
        }
    }
}

/// The mismatch of the first mark that isn't one receipt, equal to the entry.
fn first_mismatch_in_marks(found: &[Mark]) -> Option<Mismatch>
    requires { length found.now < 2 ^ 32 }
    ensures { result ≡ first_mismatch_in_marks 1 found.now }
{
    let mut number = 0;
    for mark in found {
        number += 1;
        match mark {
            Mark::Nothing => return Some(Mismatch::Missing(number)),
            Mark::Same => {}
            Mark::Other => return Some(Mismatch::Differs(number)),
            Mark::Several => return Some(Mismatch::Doubled(number)),
        }
    }
    None
}

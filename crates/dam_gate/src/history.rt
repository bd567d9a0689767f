//! The one history of a gate: one word counts its entries, and all that anybody has seen is a prefix of it.

ghost use Rattle.std.specs.Prelude.{◌≡◌, ◌<◌, ◌^◌, ◌++◌, ◌∷◌, ◌⊎◌, [], true, length, IfSome, OnSome};
ghost use mathlib.Core.List.{IsPrefix};
ghost use Rattle.dam_gate.specs.inside.History.{count_of};

use crate::opening::GateName;
use dam_book::PackedEntry;
use logbook::{Gain, Offer, Plain, Play, Rule, Seen, Word};
use std::marker::{Model, PhantomData};

/// The rule of the word that counts a gate's entries.
pub(crate) struct CountRule;

impl Rule<PackedEntry, u64> for CountRule {
    ghost use Rattle.std.specs.Prelude.{[]};
    ghost use base.Fml.{ftrue};
    ghost use Rattle.dam_gate.specs.inside.History.{IsKept};

    ghost holds = { λ cells log. IsKept cells log };

    ghost first = { [] };

    ghost hinted = { λ n log. Unit {0} };

    ghost shows = { λ log. [] };

    ghost keeps = { λ names log. ftrue };

    ghost moves = { λ ask before after answer. Unit {0} };
}

/// Callers trade nothing.
pub(crate) struct Nothing;

impl Gain<PackedEntry, u64> for Nothing {
    ghost use base.Fml.{ftrue};

    ghost after = { λ names about answer. ftrue };
}

/// A step that adds an entry.
pub(crate) struct Add;

impl Play<PackedEntry, u64> for Add {
    ghost use Rattle.dam_gate.specs.inside.History.{Adds};

    ghost then = { Adds };
}

impl Plain<PackedEntry, PackedEntry, u64> for Add {
    ghost use Rattle.std.specs.Prelude.{None};

    ghost ask = { λ entry. entry };

    ghost state = { λ entry. None };
}

/// The word that counts the entries. An entry is added to the history only through it.
#[derive(Drop)]
pub(crate) struct EntryCounter<J: GateName> {
    word: Word<PackedEntry, u64, CountRule>,
    of: PhantomData<J>,
    ghost count_is: { word ≡ count_of J.opening.history },
}

/// A history that was seen: a prefix of the gate's one history. Contracts see it as its entries.
#[derive(Drop)]
pub(crate) struct History<J: GateName> {
    held: u32,
    entries: Seen<PackedEntry, u64, CountRule>,
    of: PhantomData<J>,
}

/// The two histories of a pass with which the history of its next call begins.
#[derive(Drop)]
pub(crate) struct KnownHistories<'a, J: GateName> {
    pub(crate) seen: &'a History<J>,
    pub(crate) learnt: &'a History<J>,
}

impl<J: GateName> Model for History<J> {
    ghost use Rattle.std.specs.Prelude.{◌≡◌, List, length};
    ghost use Rattle.dam_book.specs.declared.command.Entry.{Entry};

    ghost Value = { List Entry };

    ghost view = { λ h. h.entries.log };

    ghost invariant = { λ h. (h.held ≡ length h.entries.log)
        × (h.entries.book ≡ J.opening.history) };
}

impl<J: GateName> History<J> {
    /// The empty history that was seen when the gate began.
    pub(crate) fn empty(entries: Seen<PackedEntry, u64, CountRule>) -> History<J>
        requires empty { entries.log ≡ [] }
        requires name { entries.book ≡ J.opening.history }
        ensures { result ≡ [] }
    {
        History {
            held: 0,
            entries,
            of: PhantomData,
        }
    }

    /// The number of its entries.
    pub(crate) fn len(&self) -> u32
        ensures { result ≡ length self.now }
    {
        self.held
    }

    pub(crate) fn copy(&self) -> History<J>
        ensures { result ≡ self.now }
    {
        History {
            held: self.held,
            entries: self.entries.again(),
            of: PhantomData,
        }
    }

    /// Whether the other is a prefix of it: it is unless it is longer.
    pub(crate) fn starts_with(&self, other: &History<J>) -> bool
        ensures { result ≡ true → IsPrefix other.now self.now }
    {
        // for the proof: both are prefixes of the gate's one history
        let mut both = self.entries.again();
        both.learn(&other.entries);
        if other.held > self.held {
            return false;
        }
        true
    }

    /// The longer of the two, of which the other is a prefix.
    pub(crate) fn longer(&self, other: &History<J>) -> History<J>
        ensures one { (result ≡ self.now) ⊎ (result ≡ other.now) }
        ensures this { IsPrefix self.now result }
        ensures that { IsPrefix other.now result }
    {
        // for the proof: both are prefixes of the gate's one history
        let mut both = self.entries.again();
        both.learn(&other.entries);
        if self.held < other.held {
            other.copy()
        } else {
            self.copy()
        }
    }
}

impl<J: GateName> EntryCounter<J> {
    pub(crate) fn new(word: Word<PackedEntry, u64, CountRule>) -> EntryCounter<J>
        requires { word ≡ count_of J.opening.history }
    {
        EntryCounter {
            word,
            of: PhantomData,
        }
    }

    /// Adds the entry, if the gate's history is just this one; `None` if it is another.
    pub(crate) fn extend_history(
        &self,
        history: &History<J>,
        known: &KnownHistories<'_, J>,
        entry: &PackedEntry,
    ) -> Option<History<J>>
        requires few { length history.now < 2 ^ 31 }
        ensures added { IfSome result (λ after. after ≡ history.now ++ entry.now ∷ []) }
        ensures seen { OnSome result (IsPrefix known.now.seen.now history.now) }
        ensures learnt { OnSome result (IsPrefix known.now.learnt.now history.now) }
    {
        let mut all = history.entries.again();
        let (seen, learnt) = (known.seen, known.learnt);
        all.learn(&seen.entries);
        all.learn(&learnt.entries);
        let mut offer: Offer<PackedEntry, u64, CountRule, Nothing> = all.plain::<
            Nothing,
            PackedEntry,
            Add,
        >(entry);
        let mut pen = all.no_pen();
        let held = history.held as u64;
        let found = self
            .word
            .compare_exchange::<Add, Nothing>(held, held + 1, &mut all, &mut offer, &mut pen);
        if found != held {
            return None;
        }
        Some(History {
            held: history.held + 1,
            entries: all,
            of: PhantomData,
        })
    }
}

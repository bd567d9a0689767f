//! The start of a gate, and the name that it gives the gate.

ghost use Rattle.std.specs.Prelude.{◌≡◌, []};
ghost use Rattle.dam_gate.specs.Limits.{most_passes};
ghost use Rattle.dam_gate.specs.inside.History.{count_of};

use crate::history::{CountRule, EntryCounter, History};
use crate::limits::MOST_PASSES;
use dam_book::{DayLength, PackedEntry, Seed};
use logbook::{Seen, Start, Word};
use std::marker::{Brand, Model, PhantomData};
use std::sync::ledger::{Blank as BlankLedger, Book as LedgerTotal, Ledger, Share as LedgerPart};

/// The identity of a gate: its history, its day, the number of its passes, and the count of its entries. A program that
/// begins a gate picks the name: `Brand`.
pub trait GateName {
    ghost use Rattle.dam_gate.specs.Opening.{OpeningState};

    ghost opening: { OpeningState };
}

// Any opening is sound here: a function that is generic in the name is proved for every opening, and the proof of a
// caller that passes `Brand` picks the one of its gate.
impl GateName for Brand {
    ghost opening = { record {
      history = record { number = 0; log_name = 0; cells_name = 0 };
      periods = 0;
      passes = 0;
      ledger = 0;
    } };
}

/// The ledger in which a gate's entries are counted: as many as the calls of its passes were answered with.
pub(crate) struct Answered<J: GateName> {
    of: PhantomData<J>,
}

impl<J: GateName> Ledger for Answered<J> {
    ghost name = { J.opening.ledger };

    ghost parts = { J.opening.passes };
}

/// The start of a gate: the length of its day, the number of its passes, the count of its entries, and its history,
/// which is empty and has no name yet.
#[derive(Drop)]
pub struct Opening {
    periods: u8,
    passes: u8,
    word: Word<PackedEntry, u64, CountRule>,
    entries: Seen<PackedEntry, u64, CountRule>,
    blank: BlankLedger,
    ghost empty: { entries.log ≡ [] },
    ghost count_is: { word ≡ count_of entries.book },
    ghost a_part_each: { blank.parts ≡ passes },
}

impl Model for Opening {
    ghost use Rattle.dam_gate.specs.Opening.{OpeningState};

    ghost Value = { OpeningState };

    ghost view = { λ o. record {
      history = o.entries.book;
      periods = o.periods;
      passes = o.passes;
      ledger = o.blank.name;
    } };
}

impl Opening {
    /// The opening of a day with this number of periods. If no day has that number, no gate begins with it.
    pub fn new(periods: u8) -> Opening
        ensures periods { result.periods ≡ periods }
        ensures passes { result.passes ≡ most_passes }
    {
        Opening::with_passes(periods, MOST_PASSES)
    }

    /// The opening of `new`, of a gate that gives this number of passes.
    pub(crate) fn with_passes(periods: u8, passes: u8) -> Opening
        ensures periods { result.periods ≡ periods }
        ensures passes { result.passes ≡ passes }
    {
        let (entries, mut first, _second) = Seen::open(Start::alone(), 0, 0);
        Opening {
            periods,
            passes,
            word: Word::tracked(0, &mut first),
            entries,
            blank: BlankLedger::new(passes as u64),
        }
    }

    /// The number of periods that the day is to have.
    pub(crate) fn periods(&self) -> u8
        ensures { result ≡ self.now.periods }
    {
        self.periods
    }

    /// The number of passes that the gate is to give.
    pub(crate) fn passes(&self) -> u8
        ensures { result ≡ self.now.passes }
    {
        self.passes
    }

    /// The count of the entries under a name, and the empty history.
    pub(crate) fn into_named<J: GateName>(self) -> NamedOpening<J>
        requires { self ≡ J.opening }
        ensures start { result.start ≡ [] }
        ensures none { result.answered_calls.total ≡ 0 }
        ensures whole { result.unissued_parts.parts ≡ J.opening.passes }
        ensures nothing { result.unissued_parts.amount ≡ 0 }
    {
        let Opening {
            word,
            entries,
            blank,
            ..
        } = self;
        let (answered_calls, unissued_parts) = blank.open::<Answered<J>>();
        NamedOpening {
            entry_counter: EntryCounter::new(word),
            start: History::empty(entries),
            answered_calls,
            unissued_parts,
        }
    }
}

/// The start of a gate's day: its opening, with the length of the day, and the seed by which its book hashes names.
#[derive(Drop)]
pub(crate) struct DayStart {
    pub(crate) opening: Opening,
    pub(crate) periods: DayLength,
    pub(crate) seed: Seed,
    ghost same_day: { opening.periods ≡ periods },
}

/// An opening under its name: the word that counts the entries, the empty history, and the ledger of the entries with all
/// its parts, of which each pass gets one.
#[derive(Drop)]
pub(crate) struct NamedOpening<J: GateName> {
    pub(crate) entry_counter: EntryCounter<J>,
    pub(crate) start: History<J>,
    pub(crate) answered_calls: LedgerTotal<Answered<J>>,
    pub(crate) unissued_parts: LedgerPart<Answered<J>>,
}

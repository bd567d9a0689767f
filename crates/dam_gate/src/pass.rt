//! The passes of a gate: each keeps the history that its holder knows, and no look shows less.

ghost use Rattle.std.specs.Prelude.{◌≡◌, ◌<◌, ◌⊎◌, [], true, false, length, IfOk, IfErr, IfSome, OnOk, OnErr, OnSome, IfNone};
ghost use Rattle.std.specs.Option.{option_copied};
ghost use mathlib.Core.List.{IsPrefix};
ghost use Rattle.dam_gate.specs.Journal.{journal_after, next_entry};
ghost use Rattle.dam_book.specs.Command.{is_journal_full};
ghost use Rattle.dam_gate.specs.Pass.{IsKnowledge, after_learning, after_look, is_own, knowing_nothing, same_giver};
ghost use Rattle.dam_gate.specs.Gate.{BeginsWithAll, IsCalled, IsLook};
ghost use Rattle.dam_gate.specs.inside.Locked.{entry_of};

use crate::account::Account;
use crate::gate::GateFault;
use crate::history::{History, KnownHistories};
use crate::locked::Locked;
use crate::opening::{Answered, GateName};
use crate::version::{NextShown, Shown};
use dam_book::{Name, Order, PackedCommand, PackedEntry, Participant, Reply};
use left_right::{Absorb, ReadHandle};
use std::alloc::AllocError;
use std::marker::Model;
use std::sync::Wait;
use std::sync::ledger::Share as LedgerPart;

/// A note of a call: the gate's history up to the call's entry. Another pass of the gate can learn it.
#[derive(Drop)]
pub struct Note<J: GateName> {
    pub(crate) history: History<J>,
}

impl<J: GateName> Model for Note<J> {
    ghost use Rattle.std.specs.Prelude.{List};
    ghost use Rattle.dam_book.specs.declared.command.Entry.{Entry};

    ghost Value = { List Entry };

    ghost view = { λ n. n.history };
}

/// The state that a holder carries through the gate's calls: the gate's history as far as it has seen it and learnt of
/// it, and a receipt of each of its own commands that reached the book, in the order of its calls.
///
/// A contract sees this state. Each history in it is a prefix of the one history of the gate of the name `J`: such a
/// value can't be made in another way.
#[derive(Drop)]
pub struct Pass<J: GateName> {
    holder: Option<Participant>,
    receipts: Vec<PackedEntry>,
    // the gate's history as far as it has seen it
    pub(crate) history: History<J>,
    learnt: History<J>,
    note: Option<Note<J>>,
    reader: ReadHandle<Shown<J>>,
    // its part of the gate's count of entries
    part: LedgerPart<Answered<J>>,
    ghost one_part: { part.parts ≡ 1 },
    ghost as_many: { part.amount ≡ length receipts.items },
}

impl<J: GateName> Model for Pass<J> {
    ghost use Rattle.std.specs.Prelude.{length};
    ghost use Rattle.dam_gate.specs.Pass.{Knowledge, IsKnowledge};

    ghost Value = { Knowledge };

    ghost view = { λ p. record {
      account = record { holder = p.holder; seen = length p.history; receipts = p.receipts.items };
      history = p.history;
      learnt = p.learnt;
      note = p.note;
    } };

    ghost invariant = { λ p. IsKnowledge (record {
      account = record { holder = p.holder; seen = length p.history; receipts = p.receipts.items };
      history = p.history;
      learnt = p.learnt;
      note = p.note;
    }) };
}

/// The finding of a look, in the book after the first `seen` entries of the journal.
#[derive(PartialEq, Eq, Debug, Drop)]
pub struct Look {
    /// The number of entries that the journal had.
    pub seen: u32,
    /// Whether the book was closed.
    pub closed: bool,
    /// A copy of the order that was looked for, if the book has it.
    pub order: Option<Order>,
}

impl<J: GateName> Pass<J> {
    /// A pass that has seen nothing.
    pub(crate) fn new(
        holder: Option<Participant>,
        receipts: Vec<PackedEntry>,
        start: History<J>,
        reader: ReadHandle<Shown<J>>,
        part: LedgerPart<Answered<J>>,
    ) -> Pass<J>
        requires none { receipts.items ≡ [] }
        requires start { start ≡ [] }
        requires one_part { part.parts ≡ 1 }
        requires nothing { part.amount ≡ 0 }
        ensures { result ≡ knowing_nothing holder }
    {
        Pass {
            holder,
            receipts,
            learnt: start.copy(),
            history: start,
            note: None,
            reader,
            part,
        }
    }

    /// The participant that holds it; `None` if it is the operator's.
    pub fn holder(&self) -> Option<Participant>
        ensures { result ≡ self.now.account.holder }
    {
        self.holder.as_ref().map(|who| who.copy())
    }

    /// The number of entries of the journal that it has seen.
    pub fn seen(&self) -> u32
        ensures value { result ≡ self.now.account.seen }
        ensures valid { IsKnowledge self.now }
    {
        self.history.len()
    }

    /// The entries that its calls were answered with, by increasing number.
    pub fn receipts(&self) -> &[PackedEntry]
        ensures value { result.now ≡ self.now.account.receipts }
        ensures valid { IsKnowledge self.now }
    {
        &self.receipts
    }

    /// Whether a command of this giver is for the holder to give: a participant's own commands, or the operator's
    /// close.
    pub(crate) fn acts_for(&self, giver: Option<&Participant>) -> bool
        ensures { result ≡ same_giver self.now.account.holder (option_copied giver.entry) }
    {
        match (&self.holder, giver) {
            (Some(who), Some(giver)) => *who == *giver,
            (None, None) => true,
            (Some(_), None) | (None, Some(_)) => false,
        }
    }

    /// The participant's order of that name, and whether the book is closed, in the version that is shown. It takes no
    /// lock and waits for nobody.
    ///
    /// `None` after the gate has finished.
    pub fn look(&mut self, who: &Participant, name: &Name) -> Option<Look>
        ensures look { IfSome result
            (IsLook J.opening.periods self.new.history (who.now, name.now)) }
        ensures begins { OnSome result (BeginsWithAll self.old self.new.history) }
        ensures pass { OnSome result (self.new ≡ after_look self.old self.new.history) }
        ensures none { IfNone result (self.new ≡ self.old) }
    {
        let guard = self.reader.enter()?;
        let version = guard.slot.get()?;
        let shown = version.history();
        if !shown.starts_with(&self.history) || !shown.starts_with(&self.learnt) {
            return None;
        }
        let look = Look {
            seen: shown.len(),
            closed: version.book().is_closed(),
            order: version.book().find(who, name).map(|order| order.copy()),
        };
        self.history = shown.copy();
        Some(look)
    }

    /// The note of the last answered call; `None` before the first.
    pub fn note(&self) -> Option<&Note<J>>
        ensures { option_copied result ≡ self.now.note }
    {
        self.note.as_ref()
    }

    /// From now on, looks of this pass show at least the history of the note.
    pub fn learn(&mut self, note: &Note<J>)
        ensures pass { self.new ≡ after_learning self.old self.new.learnt }
        ensures kept { IsPrefix self.old.learnt self.new.learnt }
        ensures learnt { IsPrefix note.now self.new.learnt }
        ensures one { (self.new.learnt ≡ self.old.learnt) ⊎ (self.new.learnt ≡ note.now) }
    {
        self.learnt = self.learnt.longer(&note.history);
    }

    /// Makes room for this number of further receipts.
    pub(crate) fn reserve_receipts(&mut self, receipts: usize) -> Result<(), AllocError>
        ensures { self.new ≡ self.old }
    {
        self.receipts.reserve(receipts)
    }

    /// A call's step under the lock. It returns the number and the reply of the entry.
    ///
    /// The journal's entry takes the command, and the receipt its clone. The room for the receipt is made before
    /// the journal's step, so that a failed call changes nothing.
    pub(crate) fn step<R: Wait + Drop>(
        &mut self,
        locked: &mut Locked<J, R>,
        command: PackedCommand,
    ) -> Result<(u32, Reply), GateFault>
        requires own { is_own self.old.account.holder command ≡ true }
        requires not_full { is_journal_full (length locked.old.journal.entries) command ≡ false }
        ensures entry { IfOk result (λ answer.
            entry_of command answer ≡ next_entry locked.old.journal command) }
        ensures journal { OnOk result
            (locked.new.journal ≡ journal_after locked.old.journal command) }
        ensures passes { locked.new.passes ≡ locked.old.passes }
        ensures answered { IfOk result (λ answer.
            IsCalled J.opening.periods self.old self.new (entry_of command answer)) }
        ensures learnt { OnOk result
            (IsPrefix self.old.learnt locked.old.journal.entries) }
        ensures err { OnErr result ((locked.new ≡ locked.old) × (self.new ≡ self.old)) }
        ensures fault { IfErr result (λ fault.
            (fault ≡ GateFault.Memory) ⊎ (fault ≡ GateFault.Stopped)) }
    {
        let _keeper = locked.keeper(); // for the proof: the invariant of a journal
        self.receipts.reserve(1)?;
        let received = command.clone()?;
        let known = KnownHistories {
            seen: &self.history,
            learnt: &self.learnt,
        };
        let (answer, after) = locked.append_and_publish(&known, &mut self.part, command)?;
        self.receipts
            .push_reserved(PackedEntry::new(answer.0, received, answer.1));
        self.note = Some(Note {
            history: after.copy(),
        });
        self.history = after;
        Ok(answer)
    }

    /// Its account, which remains after its gate has finished.
    pub fn into_account(self) -> Account
        ensures { result ≡ self.account }
    {
        let (account, _part) = self.into_account_and_part();
        account
    }

    /// Its account, and its part of the gate's count of entries.
    pub(crate) fn into_account_and_part(self) -> (Account, LedgerPart<Answered<J>>)
        ensures account { result.0 ≡ self.account }
        ensures one_part { result.1.parts ≡ 1 }
        ensures as_many { result.1.amount ≡ length self.account.receipts }
    {
        let Pass {
            holder,
            receipts,
            history,
            learnt: _learnt,
            note: _note,
            reader: _reader,
            part,
        } = self;
        (Account::new(holder, history.len(), receipts), part)
    }

    /// From now on, its calls' histories begin with all that the other pass has seen.
    pub(crate) fn learn_from(&mut self, other: &Pass<J>)
        ensures pass { self.new ≡ after_learning self.old self.new.learnt }
        ensures kept { IsPrefix self.old.learnt self.new.learnt }
        ensures learnt { IsPrefix other.now.history self.new.learnt }
    {
        self.learnt = self.learnt.longer(&other.history);
    }
}

/// The receipts that a new pass has room for.
pub(crate) const FIRST_RECEIPTS: usize = 16;

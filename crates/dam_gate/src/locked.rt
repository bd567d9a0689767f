//! The state under the lock of a gate: each step of its journal shows looks the version after it.

ghost use Rattle.std.specs.Prelude.{◌≡◌, ◌⊎◌, ◌<◌, ◌+◌, ◌∷◌, ◌++◌, [], false, length, IfOk, IfErr, IfSome, IfNone, OnOk, OnErr, OnSome};
ghost use Rattle.std.specs.Arc.{arc_value};
ghost use mathlib.Core.List.{IsPrefix};
ghost use Rattle.dam_gate.specs.Journal.{IsJournal, empty_journal, journal_after, next_entry};
ghost use Rattle.dam_book.specs.Command.{is_journal_full};
ghost use Rattle.dam_gate.specs.Pass.{knowing_nothing};
ghost use Rattle.dam_gate.specs.inside.Locked.{IsPassFault, entry_of};
ghost use Rattle.dam_gate.specs.inside.Shown.{IsAtMostNext, IsNext, IsNoteOf, name_after, slot_name};
ghost use Rattle.left_right.specs.Handles.{pending, published};

use crate::gate::{GateFault, PassFault};
use crate::history::{EntryCounter, History, KnownHistories};
use crate::journal::Journal;
use crate::keeper::Keeper;
use crate::limits::MOST_PASSES;
use crate::opening::{Answered, DayStart, GateName, NamedOpening};
use crate::pass::{FIRST_RECEIPTS, Pass};
use crate::version::{NextShown, Shown, Slot, Version, filled_slot};
use dam_book::{Book, PackedCommand, PackedEntry, Participant, Reply};
use left_right::{Absorb, WriteHandle};
use once_cell::race::{Note as CellNote, OnceBox};
use std::alloc::{AllocError, Global};
use std::marker::Model;
use std::sync::ledger::{Book as LedgerTotal, Share as LedgerPart};
use std::sync::{Arc, Wait};

/// The state under the lock: the keeper, and the parts that publish its versions.
///
/// A contract sees the journal, and how many passes were given. The invariant holds whenever the lock is free.
#[derive(Drop)]
pub(crate) struct Locked<J: GateName, R: Wait + Drop>
where
    Shown<J>: Absorb<NextShown<J>, State = u64>,
{
    pub(crate) alloc: Global,
    pub(crate) keeper: Keeper,
    // adds the entries to the history
    entry_counter: EntryCounter<J>,
    // the history before the first entry, and after the last one
    start: History<J>,
    history: History<J>,
    writer: WriteHandle<Shown<J>, NextShown<J>, R>,
    // the content of the slot that is shown
    shown_note: CellNote<Version<J>>,
    // the slot that a failed call left at the writer
    staged_slot: Option<Slot<J>>,
    // how many passes were given, and may be given
    issued: u8,
    most_passes: u8,
    // the total over the passes: as many answered calls as entries; and the parts of the passes that weren't given
    answered_calls: LedgerTotal<Answered<J>>,
    unissued_parts: LedgerPart<Answered<J>>,
    ghost starts: { start ≡ [] },
}

impl<J: GateName, R: Wait + Drop> Model for Locked<J, R>
where
    Shown<J>: Absorb<NextShown<J>, State = u64>,
{
    ghost use Rattle.std.specs.Prelude.{◌≡◌, ◌+◌, length};
    ghost use Rattle.left_right.specs.Handles.{pending, published};
    ghost use Rattle.dam_gate.specs.inside.Locked.{LockedState};
    ghost use Rattle.dam_gate.specs.inside.Shown.{IsAtMostNext, IsNoteOf, slot_name};

    ghost Value = { LockedState };

    ghost view = { λ l. record { journal = l.keeper.journal; passes = l.issued } };

    ghost invariant = { λ l. (l.history ≡ l.keeper.journal.entries)
        × (l.keeper.journal.book.periods ≡ J.opening.periods)
        × IsNoteOf (slot_name (published l.writer).slot) l.keeper.journal l.shown_note
        × IsAtMostNext l.staged_slot (pending l.writer)
        × (l.answered_calls.total ≡ length l.keeper.journal.entries)
        × (l.most_passes ≡ J.opening.passes)
        × (l.unissued_parts.parts + l.issued ≡ J.opening.passes)
        × (l.unissued_parts.amount ≡ 0) };
}

/// The version with all entries of the journal.
fn version_of<J: GateName>(
    alloc: Global,
    keeper: &Keeper,
    history: &History<J>,
) -> Result<Box<Version<J>>, AllocError>
    requires history { history.now ≡ keeper.now.journal.entries }
    requires day { keeper.now.journal.book.periods ≡ J.opening.periods }
    ensures { IfOk result (λ version. version.value ≡ keeper.now.journal) }
{
    let version = Version::new(keeper.clone_book_handle()?, history.copy());
    Ok(Box::new(alloc, version)?)
}

/// The writer of the versions, which shows this slot.
fn writer_from<J: GateName, R: Wait + Drop>(
    rt: R,
    alloc: Global,
    slot: &Slot<J>,
) -> Result<WriteHandle<Shown<J>, NextShown<J>, R>, AllocError>
    ensures shown { IfOk result (λ writer.
        slot_name (published writer).slot ≡ slot_name slot.now) }
    ensures waiting { IfOk result (λ writer. pending writer ≡ []) }
{
    let first = Shown {
        slot: Arc::try_clone(slot)?,
    };
    let second = Shown {
        slot: Arc::try_clone(slot)?,
    };
    WriteHandle::new(alloc, rt, first, second, MOST_PASSES as usize)
}

/// A slot for the next version: the one that a failed call left at the writer, or else a new one, which is empty. The
/// writer shows it next.
fn stage_next_slot<J: GateName, R: Wait + Drop>(
    alloc: Global,
    writer: &mut WriteHandle<Shown<J>, NextShown<J>, R>,
    staged: &mut Option<Slot<J>>,
) -> Result<Slot<J>, AllocError>
    requires waiting { IsAtMostNext staged.old (pending writer.old) }
    ensures published { published writer.new ≡ published writer.old }
    ensures waiting { IsAtMostNext staged.new (pending writer.new) }
    ensures ok { IfOk result (λ slot. IsNext (slot_name slot) (pending writer.new)) }
{
    if let Some(slot) = &*staged {
        return Arc::try_clone(slot);
    }
    let slot = Arc::new(alloc, OnceBox::new(alloc))?;
    let kept = Arc::try_clone(&slot)?;
    let change = NextShown {
        slot: Arc::try_clone(&slot)?,
    };
    if writer.append(change).is_err() {
        return Err(AllocError);
    }
    *staged = Some(kept);
    Ok(slot)
}

/// Makes the copy that no look reads any more equal to the one that is shown, so that nothing keeps the version before
/// it. It waits for the looks at that version.
fn release_earlier_version<J: GateName, R: Wait + Drop>(
    writer: &mut WriteHandle<Shown<J>, NextShown<J>, R>,
)
    requires { pending writer.old ≡ [] }
    ensures shown { slot_name (published writer.new).slot
        ≡ slot_name (published writer.old).slot }
    ensures waiting { pending writer.new ≡ [] }
{
    // Nothing waits, so an `Err` would change nothing either.
    let _shown = writer.publish();
}

/// The memory of the version after a step, all taken before the history goes on: the book, the slot in which looks find
/// the version, and its box, in which the present version is until then.
#[derive(Drop)]
struct NextVersion<J: GateName> {
    book: Arc<Book, Global>,
    slot: Slot<J>,
    version: Box<Version<J>>,
}

/// Adds the entry to the history, puts its version into the slot, and publishes. `None` if the gate has stopped: the
/// history goes on in another way, the slot was full, or the writer didn't publish.
fn extend_history_and_show<J: GateName, R: Wait + Drop>(
    entry_counter: &EntryCounter<J>,
    history: &History<J>,
    known: &KnownHistories<'_, J>,
    entry: &PackedEntry,
    next: NextVersion<J>,
    writer: &mut WriteHandle<Shown<J>, NextShown<J>, R>,
) -> Option<(History<J>, CellNote<Version<J>>)>
    requires journal { IsJournal
        (record { entries = history.now ++ entry.now ∷ []; book = arc_value next.book }) }
    requires day { (arc_value next.book).periods ≡ J.opening.periods }
    ensures history { IfSome result (λ r. r.0 ≡ history.now ++ entry.now ∷ []) }
    ensures shown { IfSome result (λ r. IsNoteOf (slot_name next.slot)
        (record { entries = history.now ++ entry.now ∷ []; book = arc_value next.book }) r.1) }
    ensures seen { OnSome result (IsPrefix known.now.seen.now history.now) }
    ensures learnt { OnSome result (IsPrefix known.now.learnt.now history.now) }
    ensures published { OnSome result (slot_name (published writer.new).slot
        ≡ name_after (slot_name (published writer.old).slot) (pending writer.old)) }
    ensures waiting { OnSome result (pending writer.new ≡ []) }
    ensures unpublished { IfNone result (published writer.new ≡ published writer.old) }
    ensures still_waiting { IfNone result (pending writer.new ≡ pending writer.old) }
{
    let (book, slot, mut version) = (next.book, next.slot, next.version);
    let Some(after) = entry_counter.extend_history(history, known, entry) else {
        return None;
    };
    *version = Version::new(book, after.copy());
    let mut note = slot.note();
    if slot.set_as(version, &mut note).is_err() {
        return None;
    }
    if writer.publish().is_err() {
        return None;
    }
    Some((after, note))
}

impl<J: GateName, R: Wait + Drop> Locked<J, R> {
    /// A day without entries, whose first version is shown.
    pub(crate) fn for_day(rt: R, alloc: Global, start: DayStart) -> Result<Locked<J, R>, AllocError>
        requires { start.opening ≡ J.opening }
        ensures { IfOk result (λ locked.
            locked ≡ record { journal = empty_journal start.opening.periods; passes = 0 }) }
    {
        let (opening, periods, seed) = (start.opening, start.periods, start.seed);
        let keeper = Keeper::for_day(alloc, periods, seed)?;
        let most_passes = opening.passes();
        let NamedOpening {
            entry_counter,
            start,
            answered_calls,
            unissued_parts,
        } = opening.into_named::<J>();
        let (slot, shown_note) = filled_slot(alloc, version_of(alloc, &keeper, &start)?)?;
        let writer = writer_from(rt, alloc, &slot)?;
        Ok(Locked {
            alloc,
            keeper,
            entry_counter,
            start: start.copy(),
            history: start,
            writer,
            shown_note,
            staged_slot: None,
            issued: 0,
            most_passes,
            answered_calls,
            unissued_parts,
        })
    }

    /// The keeper of its journal.
    pub(crate) fn keeper(&self) -> &Keeper
        ensures value { result.now.journal ≡ self.now.journal }
        ensures valid { IsJournal self.now.journal }
        ensures day { self.now.journal.book.periods ≡ J.opening.periods }
    {
        let _held = self.keeper.len(); // for the proof: the invariant of a journal
        &self.keeper
    }

    /// The journal. After those who look have finished, versions aren't shown any more.
    pub(crate) fn into_journal(self) -> Journal
        ensures value { result ≡ self.journal }
        ensures valid { IsJournal result }
        ensures day { result.book.periods ≡ J.opening.periods }
    {
        let Locked { keeper, .. } = self;
        keeper.into_journal()
    }

    /// The journal of `into_journal`, after an audit of these parts: the parts of all passes show how many entries it has.
    pub(crate) fn into_audited_journal(self, parts: &mut LedgerPart<Answered<J>>) -> Journal
        ensures value { result ≡ self.journal }
        ensures valid { IsJournal result }
        ensures day { result.book.periods ≡ J.opening.periods }
        ensures count { parts.old.parts ≡ J.opening.passes
            → parts.old.amount ≡ length result.entries }
    {
        let Locked {
            keeper,
            mut answered_calls,
            ..
        } = self;
        answered_calls.audit(parts);
        keeper.into_journal()
    }

    /// A pass that has seen nothing.
    pub(crate) fn issue_pass(&mut self, holder: Option<Participant>) -> Result<Pass<J>, PassFault>
        ensures pass { IfOk result (λ pass. pass ≡ knowing_nothing holder) }
        ensures left { OnOk result (self.old.passes < J.opening.passes) }
        ensures count { OnOk result (self.new.passes ≡ self.old.passes + 1) }
        ensures journal { self.new.journal ≡ self.old.journal }
        ensures err { OnErr result (self.new ≡ self.old) }
        ensures fault { IfErr result (IsPassFault J.opening.passes self.old.passes) }
    {
        if self.issued >= self.most_passes {
            return Err(PassFault::PassesUsed);
        }
        let Ok(reader) = self.writer.handle() else {
            return Err(PassFault::NoPlace);
        };
        let receipts = Vec::with_capacity(self.alloc, FIRST_RECEIPTS)?;
        let part = self.unissued_parts.split_off(1, 0);
        self.issued += 1;
        Ok(Pass::new(holder, receipts, self.start.copy(), reader, part))
    }

    /// Journals the command, and shows the version after it. It returns the entry's number and reply, and the history
    /// that ends with it.
    ///
    /// All that may fail comes first. The next call takes the slot that a failed call has left at the writer. The
    /// caller's part counts the entry.
    pub(crate) fn append_and_publish(
        &mut self,
        known: &KnownHistories<'_, J>,
        part: &mut LedgerPart<Answered<J>>,
        command: PackedCommand,
    ) -> Result<((u32, Reply), History<J>), GateFault>
        requires not_full { is_journal_full (length self.old.journal.entries) command ≡ false }
        requires part { 0 < part.old.parts }
        ensures entry { IfOk result (λ r.
            entry_of command r.0 ≡ next_entry self.old.journal command) }
        ensures history { IfOk result (λ r.
            r.1 ≡ self.old.journal.entries ++ entry_of command r.0 ∷ []) }
        ensures journal { OnOk result
            (self.new.journal ≡ journal_after self.old.journal command) }
        ensures passes { self.new.passes ≡ self.old.passes }
        ensures seen { OnOk result (IsPrefix known.now.seen.now self.old.journal.entries) }
        ensures learnt { OnOk result (IsPrefix known.now.learnt.now self.old.journal.entries) }
        ensures parts { part.new.parts ≡ part.old.parts }
        ensures counted { OnOk result (part.new.amount ≡ part.old.amount + 1) }
        ensures uncounted { OnErr result (part.new.amount ≡ part.old.amount) }
        ensures err { OnErr result (self.new ≡ self.old) }
        ensures fault { IfErr result (λ fault.
            (fault ≡ GateFault.Memory) ⊎ (fault ≡ GateFault.Stopped)) }
    {
        let _held = self.keeper.len(); // for the proof: the invariant of a journal
        let prepared = self.keeper.prepare(command)?;
        let version = version_of(self.alloc, &self.keeper, &self.history)?;
        let slot = stage_next_slot(self.alloc, &mut self.writer, &mut self.staged_slot)?;
        let entry = prepared.entry();
        let book = prepared.clone_book_handle()?;
        let Some((after, shown_note)) = extend_history_and_show(
            &self.entry_counter,
            &self.history,
            known,
            entry,
            NextVersion {
                book,
                slot,
                version,
            },
            &mut self.writer,
        ) else {
            return Err(GateFault::Stopped);
        };
        release_earlier_version(&mut self.writer);
        self.staged_slot = None;
        self.shown_note = shown_note;
        let answer = (entry.number(), entry.reply());
        self.keeper.append(prepared);
        self.answered_calls.add(part, 1);
        self.history = after.copy();
        Ok((answer, after))
    }
}

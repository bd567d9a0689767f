//! A desk: a journal in a store, and the book that it makes.
ghost use Rattle.std.specs.Prelude.{◌≡◌, ◌++◌, ℕ, Bool, List, take, true, false, not, IsTrue, IfErr, MatchResult};
ghost use Rattle.std.specs.Io.KnownBytes.{Appends};
ghost use Rattle.dam_store.specs.Store.{disk_of, held_lines, is_broken};
ghost use Rattle.dam_desk.specs.Desk.{IsDesk, IsStoreAfter, KeepsLines, MayLeave, ServesBatch, end_answer};
ghost use Rattle.dam_desk.specs.Device.{IsWriterAfter};
ghost use Rattle.dam_desk.specs.DeskJournal.{DeskState, OpensTo, next};
ghost use Rattle.dam_desk.specs.InputLines.{kept_bytes};
ghost use Rattle.dam_desk.specs.Faults.{IsEndFault, SaysCount, is_failed_sync, is_write};

use crate::fault::{DeskFault, InputLineFault};
use crate::fault_answer::append_fault_answer;
use crate::intake::Intake;
use crate::laws::journals_grow;
use crate::output::write_text;
use dam_device::Sink;
use dam_store::Store;
use sqlite_disk::Disk;
use std::io::Write;

/// A journal in a store, and the book that it makes.
#[derive(Drop)]
pub(crate) struct Desk<D: Disk> {
    pub(crate) store: Store<D>,
    pub(crate) intake: Intake,
}

impl<D: Disk> Desk<D> {
    /// Enters the records of the lines that end in the bytes, and answers these lines once the records are safe. Returns how
    /// many bytes the answers have.
    ///
    /// Nothing is retried. After a fault the desk is at its end.
    pub(crate) fn serve_batch<W: Write>(
        &mut self,
        bytes: &[u8],
        writer: &mut Sink<W>,
    ) -> Result<usize, DeskFault>
        requires safe { is_broken self.old.store ≡ false }
        requires writer { writer.old.failed ≡ false }
        ensures store { IsStoreAfter self.old.store self.new.store result }
        ensures writer { IsWriterAfter writer.old writer.new result }
        ensures unwritten { IfErr result (λ fault. is_write fault ≡ false
            → writer.new ≡ writer.old) }
        ensures appended { IfErr result (λ fault. is_write fault ≡ true
            → is_broken self.new.store ≡ false) }
        ensures lines { (state : DeskState) (begun : List ℕ) → IsDesk self.old state begun
            → ServesBatch self.old self.new state (begun ++ bytes.now)
            writer.old.taken writer.new.taken result }
    {
        journals_grow();
        let _safe = self.store.is_broken(); // for the proof: what an open store has is safe
        self.intake.enter_batch(bytes)?;
        let batch = self.intake.batch_of_records()?;
        self.store.append(&batch)?;
        let answers = self.intake.answers.as_slice();
        write_text(writer, answers)?;
        Ok(answers.len())
    }

    /// If the input ended inside a line, writes this line's answer: the fault `CutShort`. The file isn't changed.
    pub(crate) fn write_end_answer<W: Write>(&self, writer: &mut Sink<W>) -> Result<(), DeskFault>
        requires { writer.old.failed ≡ false }
        ensures answer { (begun : List ℕ) → self.now.intake.line ≡ kept_bytes begun
            → MatchResult result
            (λ _. Appends writer.old.taken writer.new.taken
            (end_answer (next self.now.intake.answered) begun))
            (λ fault. (count : ℕ) × Appends writer.old.taken writer.new.taken
            (take count (end_answer (next self.now.intake.answered) begun))
            × SaysCount count fault) }
        ensures writer { IsWriterAfter writer.old writer.new result }
        ensures no_sync { IfErr result (λ fault. is_failed_sync fault ≡ false) }
        ensures cause { (is_clean : Bool) (count : ℕ)
            → IfErr result (IsEndFault is_clean count count) }
    {
        if self.intake.line.bytes().is_empty() {
            return Ok(());
        }
        let alloc = self.intake.alloc;
        let mut text = Vec::new(alloc);
        let number = self.intake.answered.saturating_add(1);
        append_fault_answer(alloc, &mut text, number, InputLineFault::CutShort)?;
        write_text(writer, text.as_slice())
    }

    /// Whether no write to the file has failed, so that what the desk holds is safe.
    pub(crate) fn is_safe(&self) -> bool
        ensures value { result ≡ not (is_broken self.now.store) }
        ensures keeps { is_broken self.now.store ≡ false
            → IsTrue (D.Disk.is_clean (disk_of self.now.store))
            → KeepsLines (D.Disk.may_leave (disk_of self.now.store)) (held_lines self.now.store) }
        ensures usable { is_broken self.now.store ≡ false
            → IsTrue (D.Disk.is_usable (disk_of self.now.store)) }
        ensures opens { (state : DeskState) (begun : List ℕ) → IsDesk self.now state begun
            → is_broken self.now.store ≡ false → (file : List ℕ) → MayLeave self.now file
            → OpensTo state.journal file }
    {
        !self.store.is_broken()
    }
}

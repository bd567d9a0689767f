//! Lines are marked as they are added, so that a batch is written from its bytes as they are.
ghost use Rattle.std.specs.Prelude.{◌≡◌, ◌++◌, [], ◌∷◌, ◌==◌, false, length, take, drop, IfOk, IfErr, OnOk, OnErr};
ghost use Rattle.dam_store.specs.FileLines.{HaveNoNewline, IsLine, has_byte, marked, marked_lines};
ghost use Rattle.dam_store.specs.inside.Shape.{IsBatch};
ghost use Rattle.dam_store.specs.declared.fault.BatchFault.TheVariants.{NotALine, Memory};

use crate::fault::BatchFault;
use std::alloc::{AllocError, Global};
use std::marker::Model;

/// Lines that are to be appended together. A contract sees their list.
#[derive(Drop)]
pub struct Batch {
    // The marked lines, and then the mark of a line that doesn't count yet.
    bytes: Vec<u8>,
}

impl Model for Batch {
    ghost use Rattle.std.specs.Prelude.{List, ℕ};
    ghost use Rattle.dam_store.specs.FileLines.{marked_lines};
    ghost use Rattle.dam_store.specs.inside.Shape.{IsBatch};

    ghost Value = { List (List ℕ) };

    ghost view = { λ batch. marked_lines batch.bytes.items };

    ghost invariant = { λ batch. IsBatch batch.bytes.items };
}

impl Batch {
    /// A batch with no lines.
    pub fn new(alloc: Global) -> Result<Batch, AllocError>
        ensures { IfOk result (λ batch. batch ≡ []) }
    {
        Ok(Batch {
            bytes: Vec::from_slice(alloc, b"-")?,
        })
    }

    /// Adds a line, given without a newline.
    pub fn push(&mut self, line: &[u8]) -> Result<(), BatchFault>
        ensures ok { OnOk result (self.new ≡ self.old ++ line.now ∷ []) }
        ensures line { OnOk result (IsLine line.now) }
        ensures err { OnErr result (self.new ≡ self.old) }
        ensures not_a_line { IfErr result (λ fault. fault ≡ NotALine → ¬ (IsLine line.now)) }
        ensures memory { IfErr result (λ fault. fault ≡ Memory → IsLine line.now) }
    {
        if line.contains(&b'\n') || line.contains(&0) {
            return Err(BatchFault::NotALine);
        }
        if append_whole_line(&mut self.bytes, line).is_err() {
            return Err(BatchFault::Memory);
        }
        Ok(())
    }

    /// Whether there are no lines.
    pub fn is_empty(&self) -> bool
        ensures { result ≡ (length self.now == 0) }
    {
        self.bytes.len() == 1
    }

    /// The bytes that follow the mark of a line that doesn't count yet, once these lines are written there.
    pub(crate) fn bytes_after_mark(&self) -> &[u8]
        ensures value { result.now ≡ drop 1 (marked self.now ++ 45 ∷ []) }
        ensures whole { HaveNoNewline self.now }
    {
        &self.bytes[1..]
    }
}

/// Adds a line to the marked lines; after an error they are as before.
fn append_whole_line(bytes: &mut Vec<u8>, line: &[u8]) -> Result<(), AllocError>
    requires batch { IsBatch bytes.old.items }
    requires line { has_byte 10 line.now ≡ false }
    ensures batch { IsBatch bytes.new.items }
    ensures ok { OnOk result (marked_lines bytes.new.items
        ≡ marked_lines bytes.old.items ++ line.now ∷ []) }
    ensures err { OnErr result (marked_lines bytes.new.items ≡ marked_lines bytes.old.items) }
{
    let mark = bytes.len() - 1;
    match append_line_and_mark(bytes, line) {
        Ok(()) => {
            bytes[mark] = b'+';
            Ok(())
        }
        Err(error) => {
            bytes.truncate(mark + 1);
            Err(error)
        }
    }
}

/// Appends a line, its newline and the mark of the next one. After an error, part of these may be there.
fn append_line_and_mark(bytes: &mut Vec<u8>, line: &[u8]) -> Result<(), AllocError>
    ensures ok { OnOk result (bytes.new.items
        ≡ bytes.old.items ++ (line.now ++ 10 ∷ 45 ∷ [])) }
    ensures err { OnErr result (take (length bytes.old.items) bytes.new.items ≡ bytes.old.items) }
{
    bytes.extend_from_slice(line)?;
    bytes.extend_from_slice(b"\n-")
}

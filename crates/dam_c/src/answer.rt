//! A text that may be longer than the caller's buffer: the answer has its whole length.
ghost use Rattle.std.specs.Prelude.{◌≡◌, ◌++◌, codes, MatchResult};
ghost use Rattle.dam_engines.specs.Fault.{fault_status, fault_text};
ghost use Rattle.dam_c.specs.Answer.{HoldsText};

use dam_engines::{RunFault, fixed_fault_line, status};

/// The answer of an export.
#[repr(C)]
#[derive(Clone, Copy)]
pub struct DamAnswer {
    /// 0, or the fault's status. If it is 0, the text is the output of `dam`; otherwise it is the line of
    /// the fault.
    pub status: u8,
    /// The length of the whole text in bytes. The buffer holds its first bytes, as many as it has room for.
    pub length: usize,
}

/// Copies as much of the text as there is room for, and leaves the rest of the buffer. Returns the length of the whole
/// text.
pub(crate) fn copy_to_buffer(text: &[u8], buffer: &mut [u8]) -> usize
    ensures { HoldsText buffer.old buffer.new result text.now }
{
    let count = text.len().min(buffer.len());
    buffer[..count].copy_from_slice(&text[..count]);
    text.len()
}

/// The answer of a text, or of a fault, whose line needs no memory, with its text in the buffer.
pub(crate) fn copy_answer(made: Result<Vec<u8>, RunFault>, buffer: &mut [u8]) -> DamAnswer
    ensures { MatchResult made
        (λ text. (result.status ≡ 0)
        × HoldsText buffer.old buffer.new result.length text.items)
        (λ fault. (result.status ≡ fault_status fault)
        × HoldsText buffer.old buffer.new result.length (fault_text fault ++ codes "\n")) }
{
    match made {
        Ok(text) => DamAnswer {
            status: 0,
            length: copy_to_buffer(&text, buffer),
        },
        Err(fault) => DamAnswer {
            status: status(&fault),
            length: copy_to_buffer(fixed_fault_line(&fault).as_str().as_bytes(), buffer),
        },
    }
}

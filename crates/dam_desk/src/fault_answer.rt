//! The line of a fault.
ghost use Rattle.std.specs.Prelude.{◌≡◌, ◌++◌, OnOk, IfOk, string_bytes};
ghost use Rattle.dam_desk.specs.Answers.{fault_answer, fault_word};

use crate::fault::InputLineFault;
use std::alloc::{AllocError, Global};

/// The word of a fault, and its place in the line.
fn fault_word(alloc: Global, fault: InputLineFault) -> Result<String, AllocError>
    ensures { IfOk result (λ word. string_bytes word ≡ fault_word fault) }
{
    match fault {
        InputLineFault::TooLong => String::from_str(alloc, "TooLong"),
        InputLineFault::NotAscii(at) => format!(in alloc; "NotAscii,{at}"),
        InputLineFault::NotOneRecord => String::from_str(alloc, "NotOneRecord"),
        InputLineFault::NotDay => String::from_str(alloc, "NotDay"),
        InputLineFault::FieldCount => String::from_str(alloc, "FieldCount"),
        InputLineFault::BadField(field) => format!(in alloc; "BadField,{field}"),
        InputLineFault::OtherDay => String::from_str(alloc, "OtherDay"),
        InputLineFault::JournalFull => String::from_str(alloc, "JournalFull"),
        InputLineFault::CutShort => String::from_str(alloc, "CutShort"),
    }
}

/// Appends the answer to the line of this number, which has the fault.
pub(crate) fn append_fault_answer(
    alloc: Global,
    text: &mut Vec<u8>,
    number: u64,
    fault: InputLineFault,
) -> Result<(), AllocError>
    ensures { OnOk result (text.new.items ≡ text.old.items ++ fault_answer number fault) }
{
    let word = fault_word(alloc, fault)?;
    let line = format!(in alloc; "fault,{number},{word}\n")?;
    text.extend_from_slice(line.as_bytes())
}

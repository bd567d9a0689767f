//! The parts that the printed texts share.

ghost use Rattle.std.specs.Prelude.{◌≡◌, ◌++◌, decimal, OnOk};
ghost use Rattle.dam_results.specs.Replies.{day_line};

use itoa::Buffer;
use std::alloc::{AllocError, Allocator};

pub(crate) fn append_number<A: Allocator>(
    text: &mut Vec<u8, A>,
    number: u64,
) -> Result<(), AllocError>
    ensures { OnOk result (text.new.items ≡ text.old.items ++ decimal number) }
{
    text.extend_from_slice(Buffer::new().format(number).as_bytes())
}

pub(crate) fn append_day<A: Allocator>(
    text: &mut Vec<u8, A>,
    periods: u64,
) -> Result<(), AllocError>
    ensures { OnOk result (text.new.items ≡ text.old.items ++ day_line periods) }
{
    text.extend_from_slice(b"day,")?;
    append_number(text, periods)?;
    text.extend_from_slice(b"\n")
}

//! The text of the replies: a line for the day, and then one for each entry.

ghost use Rattle.std.specs.Prelude.{◌≡◌, ◌++◌, IfOk, OnOk};
ghost use Rattle.dam_results.specs.Replies.{reply_line};
ghost use Rattle.dam_results.specs.Replies;

use crate::lines::{append_day, append_number};
use dam_book::{DayLength, Entry, Reply};
use std::alloc::{AllocError, Allocator};

fn append_reply<A: Allocator>(text: &mut Vec<u8, A>, reply: Reply) -> Result<(), AllocError>
    ensures { OnOk result (text.new.items ≡ text.old.items ++ Replies.reply_text reply) }
{
    match reply {
        Reply::Done => text.extend_from_slice(b"done"),
        Reply::Refused(reason) => {
            text.extend_from_slice(b"refused,")?;
            text.extend_from_slice(reason.word().as_bytes())
        }
    }
}

/// Appends the line of the entry of that number, as `replies_text` has it.
pub fn append_reply_line<A: Allocator>(
    text: &mut Vec<u8, A>,
    number: u32,
    reply: Reply,
) -> Result<(), AllocError>
    ensures { OnOk result (text.new.items ≡ text.old.items ++ reply_line number reply) }
{
    append_number(text, u64::from(number))?;
    text.extend_from_slice(b",")?;
    append_reply(text, reply)?;
    text.extend_from_slice(b"\n")
}

/// The replies text of a day of this many periods: the line `day,<periods>`, and for each entry the
/// line `<number>,done` or `<number>,refused,<Reason>`.
pub fn replies_text<A: Allocator>(
    alloc: A,
    periods: DayLength,
    entries: &[Entry],
) -> Result<Vec<u8, A>, AllocError>
    ensures { IfOk result (λ text. text.items ≡ Replies.replies_text periods entries.now) }
{
    let mut text = Vec::new(alloc);
    append_day(&mut text, u64::from(periods.get()))?;
    for entry in entries {
        append_reply_line(&mut text, entry.number, entry.reply)?;
    }
    Ok(text)
}

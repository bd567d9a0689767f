//! The engine of `dam replay`, from a reader to a writer.

ghost use Rattle.std.specs.Prelude.{◌≡◌, ◌≤◌, ◌+◌, ◌-◌, false, IfOk, IfErr, IfSome};
ghost use Rattle.dam_results.specs.Journal.{IsMadeFrom};
ghost use Rattle.dam_results.specs.Replies.{AreReplies};
ghost use Rattle.dam_engines.specs.Device.{AreDevicesAfter, most_asked};
ghost use Rattle.dam_engines.specs.Engine.{Ends, IsTextFault};

use crate::fault::RunFault;
use crate::input::read_input;
use crate::output::write_text;
use dam_book::Seed;
use dam_device::{Sink, Source};
use dam_results::replay_text;
use std::alloc::Global;
use std::io::{Read, Write};

/// Reads a journal, runs its commands on the empty book of its day, and writes the day and the reply
/// to each.
///
/// The whole text is made before its first byte is written. If the input is longer than a journal may be, not all of it
/// is read. The book hashes names by the seed.
///
/// The rules of `run_clear` for readers and writers hold here too.
pub fn run_replay<R: Read, W: Write>(
    alloc: Global,
    seed: Seed,
    reader: &mut Source<R>,
    writer: &mut Sink<W>,
) -> Result<(), RunFault>
    requires reads { reader.old.failed ≡ false }
    requires writes { writer.old.failed ≡ false }
    ensures ends { IfSome reader.old.unread (λ given.
        Ends (IsMadeFrom AreReplies given) (IsTextFault given)
        writer.old.taken writer.new.taken (writer.new.asked - writer.old.asked) result) }
    ensures devices { AreDevicesAfter reader.old reader.new writer.old writer.new result }
    ensures asked { reader.new.asked ≤ reader.old.asked + most_asked reader.old.unread }
{
    let text = read_input(alloc, reader)?;
    let replies = replies_of(alloc, seed, text.as_slice())?;
    write_text(writer, replies.as_slice())
}

/// The replies to a text, as `run_replay` prints them. A text that is longer than a journal may be may have been cut
/// after the first byte too many. The book hashes names by the seed.
pub fn replies_of(alloc: Global, seed: Seed, text: &[u8]) -> Result<Vec<u8>, RunFault>
    ensures done { IfOk result (λ replies. IsMadeFrom AreReplies text.now replies.items) }
    ensures fault { IfErr result (IsTextFault text.now) }
{
    Ok(replay_text(alloc, seed, text)?)
}

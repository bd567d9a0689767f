//! At most one byte more than a journal may have is read, which shows that it has too many.

ghost use Rattle.std.specs.Prelude.{◌≡◌, ◌≤◌, ◌+◌, false, take, IfOk, IfErr, IfSome, MatchResult};
ghost use Rattle.dam_engines.specs.Device.{HasServed, IsReaderAfter, most_asked};
ghost use Rattle.dam_engines.specs.Engine.{most_read};
ghost use Rattle.dam_engines.specs.inside.Reading.{IsReadingFault};

use crate::fault::RunFault;
use dam_device::{CHUNK, Source};
use dam_results::MOST_BYTES;
use std::alloc::Global;
use std::io::Read;

/// The most bytes that are read: one more than a journal may have, which shows that it has too many.
pub(crate) const MOST_READ: usize = MOST_BYTES + 1;

/// The reader's bytes, to the first read of no bytes or to the first `MOST_READ` of them.
pub(crate) fn read_input<R: Read>(
    alloc: Global,
    reader: &mut Source<R>,
) -> Result<Vec<u8>, RunFault>
    requires { reader.old.failed ≡ false }
    ensures text { IfOk result (λ text.
        IfSome reader.old.unread (λ given. text.items ≡ take most_read given)) }
    ensures fault { IfErr result IsReadingFault }
    ensures cause { MatchResult result
        (λ _. HasServed reader.old reader.new)
        (IsReaderAfter reader.old reader.new) }
    ensures asked { reader.new.asked ≤ reader.old.asked + most_asked reader.old.unread }
{
    let mut text = Vec::new(alloc);
    let mut chunk = [0; CHUNK];
    while text.len() < MOST_READ {
        let room = CHUNK.min(MOST_READ - text.len());
        let Ok(count) = reader.read(&mut chunk[..room]) else {
            return Err(RunFault::Read);
        };
        if count == 0 {
            break;
        }
        text.extend_from_slice(&chunk[..count])?;
    }
    Ok(text)
}

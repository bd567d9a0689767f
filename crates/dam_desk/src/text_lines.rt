//! The lines of a text.
ghost use Rattle.std.specs.Prelude.{◌≡◌, ◌<◌, false, length, IfSome, MatchOption};
ghost use Rattle.dam_store.specs.FileLines.{has_byte};
ghost use Rattle.dam_desk.specs.inside.TextLines.{BeginsWith};

use memchr::memchr;

/// The first line of the bytes, without its line feed, and the bytes after it.
pub(crate) fn split_first_line<'a>(bytes: &'a [u8]) -> Option<(&'a [u8], &'a [u8])>
    ensures shorter { IfSome result (λ parts. length parts.1.now < length bytes.entry.now) }
    ensures first { MatchOption result (has_byte 10 bytes.entry.now ≡ false)
        (λ parts. BeginsWith bytes.entry.now parts.0.now parts.1.now) }
{
    let Some(at) = memchr(b'\n', bytes) else {
        return None;
    };
    Some((&bytes[..at], &bytes[at + 1..]))
}

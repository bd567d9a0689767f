//! Lines count up to the first that isn't whole or lacks its mark.
ghost use Rattle.std.specs.Prelude.{◌≡◌, List, ℕ, MatchOption, IfOk};
ghost use Rattle.dam_store.specs.FileLines.{text_of, marked_lines};
ghost use Rattle.dam_store.specs.inside.Shape.{BeginsWithLine, IsShut, EndsAt};

use memchr::memchr;
use std::alloc::{AllocError, Global};

/// The length of the whole marked line at the beginning of the bytes, with its mark and its newline.
fn line_len(bytes: &[u8]) -> Option<usize>
    ensures { MatchOption result (IsShut bytes.now) (BeginsWithLine bytes.now) }
{
    let [b'+', ..] = bytes else {
        return None;
    };
    let Some(newline) = memchr(b'\n', bytes) else {
        return None;
    };
    Some(newline + 1)
}

/// The lines at the beginning of some bytes.
#[derive(Drop)]
pub(crate) struct MarkedLines {
    /// The lines without their marks.
    pub(crate) text: Vec<u8>,
    /// The end of them.
    pub(crate) end: usize,
}

/// The whole marked lines at the beginning of the bytes.
pub(crate) fn read_marked_lines(alloc: Global, bytes: &[u8]) -> Result<MarkedLines, AllocError>
    ensures text { IfOk result (λ found. found.text.items ≡ text_of (marked_lines bytes.now)) }
    ensures end { IfOk result (λ found. EndsAt bytes.now found.end (marked_lines bytes.now)) }
{
    let mut text = Vec::new(alloc);
    let mut end = 0;
    let mut rest = bytes;
    while let Some(len) = line_len(rest) {
        text.extend_from_slice(&rest[1..len])?;
        rest = &rest[len..];
        end += len;
    }
    Ok(MarkedLines { text, end })
}

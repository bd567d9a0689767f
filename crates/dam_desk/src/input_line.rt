//! A line of the input, as it comes in pieces.
ghost use Rattle.std.specs.Prelude.{◌≡◌, ◌++◌, List, ℕ, [], OnOk};
ghost use Rattle.dam_desk.specs.InputLines.{kept_bytes};

use crate::limits::MOST_LINE;
use std::alloc::{AllocError, Global};
use std::marker::Model;

/// The line that has begun: its bytes, or, of a longer one, the first `MOST_LINE + 1` of them.
#[derive(Drop)]
pub(crate) struct InputLine {
    bytes: Vec<u8>,
}

impl Model for InputLine {
    ghost use Rattle.std.specs.Prelude.{List, ℕ, ◌≤◌, ◌+◌, length};
    ghost use Rattle.dam_desk.specs.Limits.{most_line};

    ghost Value = { List ℕ };

    ghost view = { λ line. line.bytes.items };

    ghost invariant = { λ line. length line.bytes.items ≤ most_line + 1 };
}

impl InputLine {
    pub(crate) fn new(alloc: Global) -> InputLine
        ensures { result ≡ [] }
    {
        InputLine {
            bytes: Vec::new(alloc),
        }
    }

    /// Adds bytes to the line.
    pub(crate) fn extend(&mut self, bytes: &[u8]) -> Result<(), AllocError>
        ensures { OnOk result ((begun : List ℕ) → self.old ≡ kept_bytes begun
            → self.new ≡ kept_bytes (begun ++ bytes.now)) }
    {
        let room = MOST_LINE + 1 - self.bytes.len();
        self.bytes
            .extend_from_slice(&bytes[..room.min(bytes.len())])
    }

    /// Begins the next line.
    pub(crate) fn clear(&mut self)
        ensures { self.new ≡ [] }
    {
        self.bytes.clear();
    }

    pub(crate) fn bytes(&self) -> &[u8]
        ensures { result.now ≡ self.now }
    {
        self.bytes.as_slice()
    }
}

//! A text of few bytes, stored in the value itself: a name or a participant's code.

ghost use Rattle.std.specs.Prelude.{◌≡◌, ◌<◌, ◌≤◌, ◌∷◌, [], length, nat_eq, SomeIff};
ghost use Rattle.std.specs.Cmp.{partial_equiv_from_equiv};
ghost use Rattle.std.specs.Cmp.Lexicographic.{pointwise, nat_list_eq_equiv};
ghost use Rattle.std.specs.Cmp.Rules.{hashing};
ghost use Rattle.std.specs.Hash as fed;
ghost use Rattle.std.proofs.Common.{rules};
ghost use Rattle.dam_book.specs.Name.{with_zeros};

use std::hash::{Hash, Hasher};
use std::marker::Model;

// A text of at most `N` bytes, which are stored in the value itself, with one byte for how many there are: a command has
// up to four texts, and a day holds thousands of commands. A contract sees the bytes.
#[derive(Debug, Drop)]
pub(crate) struct ShortText<const N: usize> {
    // those beyond the text are 0
    bytes: [u8; N],
    used: u8,
}

impl<const N: usize> Model for ShortText<N> {
    ghost use Rattle.std.specs.Prelude.{List, ℕ, ◌≡◌, ◌≤◌, ◌-◌, ◌++◌, take, replicate};

    ghost Value = { List ℕ };

    ghost view = { λ t. take t.used t.bytes };

    ghost invariant = { λ t. (t.used ≤ N)
        × (t.bytes ≡ take t.used t.bytes ++ replicate (N - t.used) 0) };
}

impl<const N: usize> ShortText<N> {
    // The text of these bytes, or `None` if there are none or more than `N`.
    pub(crate) fn new(text: &[u8]) -> Option<ShortText<N>>
        requires { N ≤ 255 }
        ensures { SomeIff result ((0 < length text.now) × (length text.now ≤ N)) text.now }
    {
        if text.is_empty() || text.len() > N {
            return None;
        }
        let mut bytes = [0; N];
        bytes[..text.len()].copy_from_slice(text);
        Some(ShortText {
            bytes,
            used: text.len() as u8,
        })
    }

    // An equal text. The unused bytes are copied too.
    pub(crate) fn copy(&self) -> ShortText<N>
        ensures { result ≡ self.now }
    {
        ShortText {
            bytes: self.bytes,
            used: self.used,
        }
    }

    // Its bytes, and a 0 in each place after them.
    pub(crate) fn as_padded_bytes(&self) -> &[u8; N]
        ensures { result.now ≡ with_zeros N self.now }
    {
        &self.bytes
    }

    // Its bytes.
    pub(crate) fn as_bytes(&self) -> &[u8]
        ensures { result.now ≡ self.now }
    {
        &self.bytes[..usize::from(self.used)]
    }
}

impl<const N: usize> PartialEq for ShortText<N> {
    ghost eq = { λ s t. pointwise nat_eq s t };

    ghost laws = { partial_equiv_from_equiv nat_list_eq_equiv };

    fn eq(&self, other: &Self) -> bool {
        self.as_bytes() == other.as_bytes()
    }
}

impl<const N: usize> Eq for ShortText<N> {
    ghost laws = { nat_list_eq_equiv };
}

impl<const N: usize> Hash for ShortText<N> {
    ghost hash_input = { λ t. with_zeros N t ∷ [] };

    ghost respects_eq = { Prim.search (hashing, rules) };

    // All the places at once, the unused ones too: two texts that differ differ there, since no text has a byte 0.
    fn hash<H: Hasher>(&self, state: &mut H) {
        state.write(&self.bytes);
    }
}

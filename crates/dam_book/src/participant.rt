//! The codes of participants: short texts of few letters, checked once.

ghost use Rattle.std.specs.Prelude.{◌≡◌, SomeIff};
ghost use Rattle.std.specs.List.{list_all};
ghost use Rattle.dam_book.specs.Limits.{longest_participant};
ghost use Rattle.dam_book.specs.Name.{IsParticipant, is_letter_byte, with_zeros};

use crate::short_text::ShortText;
use std::alloc::AllocError;
use std::marker::Model;

/// The greatest number of bytes in a participant's code.
pub const LONGEST_PARTICIPANT: usize = 8;

/// The code of a market participant: 1 to `LONGEST_PARTICIPANT` bytes of `A` to `Z`.
///
/// A contract sees the bytes.
#[derive(PartialEq, Eq, Hash, Debug, Drop)]
pub struct Participant {
    code: ShortText<LONGEST_PARTICIPANT>,
}

impl Model for Participant {
    ghost use Rattle.std.specs.Prelude.{List, ℕ};
    ghost use Rattle.dam_book.specs.Name.{IsParticipant};

    ghost Value = { List ℕ };

    ghost view = { λ p. p.code };

    ghost invariant = { λ p. IsParticipant p.code };

    ghost inverse = { λ code. record { code = code } };
}

impl Participant {
    /// The participant of this code, or `None` if the bytes aren't a code.
    pub fn new(bytes: &[u8]) -> Option<Participant>
        ensures { SomeIff result (IsParticipant bytes.now) bytes.now }
    {
        let code = ShortText::new(bytes)?;
        if !are_letter_bytes(bytes) {
            return None;
        }
        Some(Participant { code })
    }

    /// An equal participant; unlike `clone`, it can't fail.
    pub fn copy(&self) -> Participant
        ensures { result ≡ self.now }
    {
        Participant {
            code: self.code.copy(),
        }
    }

    // The bytes of its code, and a 0 in each place after them.
    pub(crate) fn as_padded_bytes(&self) -> &[u8; LONGEST_PARTICIPANT]
        ensures { result.now ≡ with_zeros longest_participant self.now }
    {
        self.code.as_padded_bytes()
    }

    /// The bytes of its code.
    pub fn as_bytes(&self) -> &[u8]
        ensures value { result.now ≡ self.now }
        ensures valid { IsParticipant self.now }
    {
        self.code.as_bytes()
    }
}

impl Clone for Participant {
    ghost is_clone = { λ x y. y ≡ x };

    fn clone(&self) -> Result<Participant, AllocError> {
        Ok(self.copy())
    }
}

fn is_letter_byte(byte: u8) -> bool
    ensures { result ≡ is_letter_byte byte }
{
    byte.is_ascii_uppercase()
}

fn are_letter_bytes(bytes: &[u8]) -> bool
    ensures { result ≡ list_all is_letter_byte bytes.now }
{
    bytes.iter().all(|byte| is_letter_byte(*byte))
}

//! The seed with which a book's map hashes, from random bytes of the caller.
ghost use Rattle.std.specs.Prelude.{length, IsOk};
ghost use Rattle.dam_c.specs.Answer.{HoldsText};

use crate::answer::copy_to_buffer;
use dam_book::Seed;
use std::io;
use std::random::RandomSource;

/// Random bytes that a caller gave, in place of the system's, for which a static library can't ask.
#[derive(Drop)]
struct SecretBytes<'a>(&'a [u8]);

impl RandomSource for SecretBytes<'_> {
    /// Copies as many of them as there is room for.
    fn fill_bytes(&self, buf: &mut [u8]) -> io::Result<()>
        ensures ok { IsOk result }
        ensures given { HoldsText buf.old buf.new (length self.now.0.now) self.now.0.now }
    {
        let _length = copy_to_buffer(self.0, buf);
        Ok(())
    }
}

/// A seed that is drawn from these bytes: from the first 16, and zeros for those that are missing.
///
/// That `fill_bytes` gives them is proved. That they become the seed's keys is only tested, because `RandomState::new`,
/// which asks for them, doesn't say so in its contract.
pub(crate) fn seed_from_secret(secret: &[u8]) -> Seed {
    Seed::drawn(&SecretBytes(secret))
}

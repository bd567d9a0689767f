//! Laws of the definitions, each the contract of a function that does nothing.
ghost use Rattle.std.specs.Prelude.{◌≡◌, ◌++◌, [], List, ℕ};
ghost use Rattle.dam_store.specs.Limits.{most_file_bytes};
ghost use Rattle.dam_store.specs.FileLines.{text_of};
ghost use Rattle.dam_store.specs.StoreHistory.{Known, Event, IsStoreHistory, AreGiven};

use crate::limits::MOST_FILE_BYTES;

/// The exported constant is the number of its limit.
pub fn limits()
    ensures { MOST_FILE_BYTES ≡ most_file_bytes }
{}

/// Through any openings, appends, faults and crashes, the file keeps every line that it was sure to hold, and after
/// them every line that was acknowledged, in order. Between these there may be batches that were given and not
/// acknowledged, each whole.
pub fn nothing_is_lost()
    ensures { (events : List Event) (known last : Known) → known.pending ≡ []
        → IsStoreHistory known events last
        → (more : List (List ℕ)) × (last.sure ≡ known.sure ++ more) × AreGiven events more }
{}

/// The text of lines and then others is the text of the first, and then the text of the others.
pub fn texts_follow()
    ensures { (lines more : List (List ℕ))
        → text_of (lines ++ more) ≡ text_of lines ++ text_of more }
{}

//! The best selection, the greatest value read and the count of visits, which both walks keep as they go on.

ghost use Rattle.std.specs.Prelude.{◌≡◌, pos, Some, IsTrue, ◌↔◌, ◌≤ℤ◌, MatchBool};
ghost use Rattle.dam_search.specs.Piece.{IsMatched, Rises};

use crate::welfare::unsigned_welfare;
use dam_blocks::{Solution, ranks_above};
use dam_plan::NodeCount;

/// The state of a walk so far.
#[derive(Drop)]
pub(crate) struct WalkState {
    /// The best selection found.
    pub(crate) best: Option<Solution>,
    /// The greatest value read.
    pub(crate) incumbent_read: u64,
    /// The nodes visited. A limit on nodes stops a walk by prefixes at them; those of a walk by prices are only for tests.
    pub(crate) visited: NodeCount,
}

/// Whether the candidate ranks above the selection found.
pub(crate) fn ranks_above_found(candidate: &Solution, best: &Option<Solution>) -> bool
    ensures { MatchBool result (Rises best.now (Some candidate.now))
        (IsMatched (pos candidate.now.welfare) candidate.now.selection best.now) }
{
    dam_blocks::laws::ranking_is_total();
    match best {
        Some(best) => ranks_above(*candidate, *best),
        None => true,
    }
}

/// Whether the bound is at least the value.
pub(crate) fn bound_reaches(bound: i64, value: u64) -> bool
    ensures { IsTrue result ↔ (pos value ≤ℤ bound) }
{
    bound >= 0 && value <= unsigned_welfare(bound)
}

/// Whether the bound equals the value.
pub(crate) fn bound_equals(bound: i64, value: u64) -> bool
    ensures { IsTrue result ↔ (bound ≡ pos value) }
{
    bound >= 0 && unsigned_welfare(bound) == value
}

//! Why a search has no result: no memory, a piece without just one answer, or a piece that is unfinished.

use dam_plan::NodeCount;
use std::alloc::AllocError;
use thiserror::Error;

/// Why a search has no result, in the order in which the faults are looked for.
#[derive(Clone, Copy, PartialEq, Eq, Debug, Error)]
pub enum SearchFault {
    /// A growth was refused: of the curves, the bounds, the order, the words or the lists, before the work, or of a
    /// worker's own list, before its first draw.
    #[error("out of memory")]
    Memory,
    /// Some piece has no answer of the workers, or more than one. `search` and `search_alone` never
    /// answer this.
    #[error("piece {piece} has no answer, or more than one")]
    AnswerMissingOrRepeated {
        /// The least such piece, from 0.
        piece: u32,
    },
    /// Some piece visited as many nodes as the plan allows and needed another. A plan with a
    /// greater limit may finish the search.
    #[error("piece {piece} isn't finished after {visited} nodes")]
    Unfinished {
        /// The least such piece, from 0.
        piece: u32,
        /// The number of its nodes that were visited: the plan's limit.
        visited: NodeCount,
    },
}

impl From<AllocError> for SearchFault {
    ghost use Rattle.std.specs.Prelude.{◌≡◌};
    ghost use Rattle.dam_search.specs.declared.fault.SearchFault.TheVariants.{Memory};

    ghost from_gives = { λ _ e. e ≡ Memory };

    fn from(_error: AllocError) -> SearchFault {
        SearchFault::Memory
    }
}

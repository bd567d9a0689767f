//! An answer about a piece may leave out selections with less welfare than some incumbent that was read.

ghost use Rattle.std.specs.Prelude.{◌≡◌, None, true};

use dam_blocks::Solution;
use dam_plan::NodeCount;

/// The answer of a walk over one piece.
///
/// If it is `done`, every eligible selection of the piece ranks at or below `best` or has less
/// welfare than `incumbent_read`. Otherwise it doesn't rule out other selections.
#[derive(Clone, Copy, PartialEq, Eq, Debug)]
pub struct PieceAnswer {
    /// The number of the piece, from 0.
    pub piece: u32,
    /// The best eligible selection that was found in the piece, `None` if none was.
    pub best: Option<Solution>,
    /// The greatest value that was read of the incumbent on the way, in cents per MWh times tenths
    /// of a MW; 0 if nothing was read.
    pub incumbent_read: u64,
    /// The nodes visited: those whose bound was compared with the incumbent read, and selections whose welfare
    /// was looked at. Only tests read it of a walk by prices, and no clause bounds it then.
    pub visited: NodeCount,
    /// Whether no node is left to visit. It is false only if `visited` is the limit.
    pub done: bool,
}

impl PieceAnswer {
    /// The answer about a piece that has no eligible selection, as was seen before any node was visited.
    pub(crate) fn nothing_in(piece: u32) -> PieceAnswer
        ensures { result ≡ record {
          piece = piece;
          best = None;
          incumbent_read = 0;
          visited = 0;
          done = true;
        } }
    {
        PieceAnswer {
            piece,
            best: None,
            incumbent_read: 0,
            visited: 0,
            done: true,
        }
    }
}

//! Decisions on the first blocks, in book order, as a walk with a limit on nodes makes them.

ghost use Rattle.std.specs.Prelude.{◌≡◌, ◌^◌, ◌+◌, ◌-◌, ◌<◌, ◌≤◌, false};
ghost use Rattle.std.specs.Prelude.{List, Bool, [], ◌∷◌, ◌++◌, length, take, IsTrue, ◌↔◌};
ghost use Rattle.dam_book.specs.Limits.{most_blocks};
ghost use Rattle.dam_blocks.specs.Selection.{choice, padded, IsAdmissible};
ghost use Rattle.dam_bound.specs.Prefix.{IsCompletion};

use dam_blocks::{Problem, Selection, admissible};
use std::alloc::Allocator;
use std::marker::Model;

/// A prefix: decisions on the first blocks. It is a node of a piece.
///
/// A contract sees the list of the decisions.
#[derive(Drop)]
pub(crate) struct Prefix {
    accepted: Selection,
    depth: usize,
}

impl Model for Prefix {
    ghost use Rattle.std.specs.Prelude.{◌≡◌, ◌≤◌, List, Bool, take};
    ghost use Rattle.dam_book.specs.Limits.{most_blocks};
    ghost use Rattle.dam_blocks.specs.Selection.{padded};

    ghost Value = { List Bool };

    ghost view = { λ f. take f.depth f.accepted };

    ghost invariant = { λ f.
        (f.accepted ≡ padded (take f.depth f.accepted)) × (f.depth ≤ most_blocks) };
}

impl Prefix {
    /// The prefix of a piece: of those that decide the first `depth` blocks the one of this number.
    pub(crate) fn of_piece(depth: usize, piece: u32) -> Prefix
        requires depth { depth ≤ most_blocks }
        requires piece { piece < 2 ^ depth }
        ensures { result ≡ choice depth piece }
    {
        Prefix {
            accepted: Selection::choice(depth, piece),
            depth,
        }
    }

    /// The number of decided blocks.
    pub(crate) fn depth(&self) -> usize
        ensures value { result ≡ length self.now }
        ensures few { result ≤ most_blocks }
    {
        self.depth
    }

    /// The selection that accepts no other block.
    pub(crate) fn selection(&self) -> Selection
        ensures { result ≡ padded self.now }
    {
        self.accepted
    }

    /// The prefix with a decision on the next block too.
    pub(crate) fn extended(&self, accept: bool) -> Prefix
        requires { length self.now < most_blocks }
        ensures { result ≡ self.now ++ accept ∷ [] }
    {
        let accepted = if accept {
            self.accepted.with(self.depth)
        } else {
            self.accepted
        };
        Prefix {
            accepted,
            depth: self.depth + 1,
        }
    }

    /// Whether the links and the groups admit the selection that accepts no other block. If they don't,
    /// they admit no completion, because a block comes after its parent.
    pub(crate) fn is_admissible<A: Allocator>(&self, problem: &Problem<A>) -> bool
        ensures value { IsTrue result ↔ IsAdmissible problem.now.blocks (padded self.now) }
        ensures completions { result ≡ false → (sel : List Bool) → IsCompletion self.now sel
            → ¬ (IsAdmissible problem.now.blocks sel) }
    {
        dam_blocks::laws::fronts_are_admissible();
        let _invariant = problem.periods(); // for the proof: the invariant of a problem
        admissible(problem, self.accepted)
    }
}

//! The plan of a search: its three numbers share out the work, and don't change the result of a finished search.

ghost use Rattle.std.specs.Prelude.{◌≡◌, ◌≤◌, min, SomeIff};
ghost use Rattle.dam_plan.specs.Limits.{most_cut};
ghost use Rattle.dam_plan.specs.Plan.{IsPlan};

use std::marker::Model;

/// The greatest number of workers.
pub const MOST_WORKERS: u8 = 8;

/// The greatest number of blocks that the cutting decides, which makes 256 pieces.
pub const MOST_CUT: u8 = 8;

/// A number of nodes. A search over n blocks visits at most 2^(n+1) - 1 nodes. That number is computed from 2^(n+1), so
/// with a `u32` a book has at most 30 blocks.
pub type NodeCount = u32;

/// The greatest number of nodes that may be visited in one piece.
pub const MOST_NODES: NodeCount = 67_108_864;

/// How a search is shared out: how many workers walk the pieces, how many of the first blocks
/// the cutting decides, and how many nodes of one piece may be visited.
///
/// A finished search has the same result under every plan; whether a small third number leaves it
/// unfinished may depend on the other two. A contract sees the three numbers.
#[derive(Clone, Copy, PartialEq, Eq, Debug)]
pub struct Plan {
    workers: u8,
    cut: u8,
    node_limit: NodeCount,
}

impl Model for Plan {
    ghost use Rattle.dam_plan.specs.Plan.{PlanTerms, IsPlan};

    ghost Value = { PlanTerms };

    ghost view = { λ p. record { workers = p.workers; cut = p.cut; node_limit = p.node_limit } };

    ghost invariant = { λ p.
        IsPlan (record { workers = p.workers; cut = p.cut; node_limit = p.node_limit }) };

    ghost inverse = { λ p. record { workers = p.workers; cut = p.cut; node_limit = p.node_limit } };
}

impl Plan {
    /// The plan of these numbers, or `None` if one is outside its limits: 1 to `MOST_WORKERS`, 0
    /// to `MOST_CUT` and 1 to `MOST_NODES`.
    pub fn new(workers: u8, cut: u8, node_limit: NodeCount) -> Option<Plan>
        ensures { SomeIff result
            (IsPlan (record { workers = workers; cut = cut; node_limit = node_limit }))
            (record { workers = workers; cut = cut; node_limit = node_limit }) }
    {
        let has_workers = 1 <= workers && workers <= MOST_WORKERS;
        let has_nodes = 1 <= node_limit && node_limit <= MOST_NODES;
        if !has_workers || cut > MOST_CUT || !has_nodes {
            return None;
        }
        Some(Plan {
            workers,
            cut,
            node_limit,
        })
    }

    /// The number of workers.
    pub fn workers(self) -> u8
        ensures value { result ≡ self.workers }
        ensures valid { IsPlan self }
    {
        self.workers
    }

    /// The number of first blocks that the cutting decides, if there are that many.
    pub fn cut(self) -> u8
        ensures value { result ≡ self.cut }
        ensures valid { IsPlan self }
    {
        self.cut
    }

    /// How many of the first blocks the cutting of this number of blocks decides: 2 to the power of that is the number of
    /// pieces.
    pub fn depth(self, blocks: usize) -> usize
        ensures value { result ≡ min self.cut blocks }
        ensures shallow { result ≤ most_cut }
    {
        usize::from(self.cut).min(blocks)
    }

    /// The limit on nodes: how many of one piece may be visited.
    pub fn node_limit(self) -> NodeCount
        ensures value { result ≡ self.node_limit }
        ensures valid { IsPlan self }
    {
        self.node_limit
    }
}

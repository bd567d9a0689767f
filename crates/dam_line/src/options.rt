//! The numbers of a plan as options, each with its range and its default.

use dam_plan::{MOST_CUT, MOST_NODES, MOST_WORKERS};

/// An option with a number.
#[derive(Clone, Copy)]
pub struct NumberOption {
    /// The word of the option, without its two dashes.
    pub name: &'static str,
    /// The least number that it takes.
    pub least: u32,
    /// The greatest number that it takes.
    pub most: u32,
    /// The number if the words give none.
    pub default: u32,
    /// `default`, as it would stand among the words.
    pub default_text: &'static str,
    /// The number's name in the help.
    pub letter: &'static str,
    /// The help's text on it.
    pub help: &'static str,
}

/// The number of workers.
pub(crate) const WORKERS: NumberOption = NumberOption {
    name: "workers",
    least: 1,
    most: MOST_WORKERS as u32,
    default: 2,
    default_text: "2",
    letter: "N",
    help: "Search with N workers at the same time, from 1 to 8",
};

/// The number of blocks that the cutting decides.
pub(crate) const CUT: NumberOption = NumberOption {
    name: "cut",
    least: 0,
    most: MOST_CUT as u32,
    default: 3,
    default_text: "3",
    letter: "K",
    help: "Split the search into 2^K pieces by the decisions on the first K blocks, from 0 to 8",
};

/// The most nodes of one piece that may be visited.
pub(crate) const NODES: NumberOption = NumberOption {
    name: "nodes",
    least: 1,
    most: MOST_NODES,
    default: MOST_NODES,
    default_text: "67108864",
    letter: "M",
    help: "Give up if a piece needs more than M nodes, from 1 to 67108864",
};

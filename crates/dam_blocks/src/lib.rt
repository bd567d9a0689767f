//! Block orders of the auction: the problem of a closed book, the selections of its blocks, their
//! score, and the plain search over all of them.
//!
//! A `Problem` has each period's hourly orders, ready to be cleared, and the blocks in book order. A
//! `Selection` is a set of these blocks. `score` returns a selection's welfare if it is eligible, and
//! otherwise the first reason why it isn't; `ranks_above` orders the eligible ones, and `best_of_all`
//! finds the best of them by trying every selection.
//!
//! ```
//! let problem = Problem::of_book(alloc, &book)?;
//! let first_alone = Selection::none().with(0);
//! assert_eq!(score(&problem, first_alone), Verdict::Losing(0));
//! let best = best_of_all(&problem);
//! assert_eq!(score(&problem, best.selection), Verdict::Eligible(best.welfare));
//! ```
//!
//! A contract sees a problem as the steps of each period, the blocks and the rows, a selection as the
//! list of its acceptances, and a block as its names and terms. `specs/` defines these words. Only
//! tests show the texts of the faults, and that a call reports out of memory only if memory was
//! refused.
//!
//! The crate doesn't know a faster search for a result than trying every selection, nor texts.
#![tactic(auto)]

mod block_effects;
mod family;
mod hindrances;
pub mod laws;
mod links;
pub mod market;
mod problem;
mod problem_making;
mod result;
mod scoring;
mod selection;
mod surpluses;

pub use block_effects::{
    accepted_value, bought_volume, bought_volume_of_block, net_volume, net_volume_of_block,
    value_in, volume_in,
};
pub use family::descends;
pub use links::{admissible, are_of_one_group, is_allowed};
pub use problem::{Block, MOST_PERIODS, Place, Problem, ProblemFault, ProblemRow};
pub use result::{best_of_all, empty_solution, ranks_above};
pub use scoring::{Verdict, score};
pub use selection::{Selection, Solution};
pub use surpluses::{family_surplus, surplus};

//! The sharing of work: the three numbers of a search's plan, with their limits, and the callbacks round a job's work.
//!
//! The command line asks for a plan, and the search works by one; neither knows of the other. The search and the gate
//! call a turnstile; neither knows of the other.
#![tactic(auto)]

mod plan;
mod turnstile;

pub use plan::{MOST_CUT, MOST_NODES, MOST_WORKERS, NodeCount, Plan};
pub use turnstile::{FreeTurn, Turnstile};

//! The search for the best selection of blocks: its pieces, and the workers that walk them.
//!
//! ```
//! let plan = Plan::new(2, 3, MOST_NODES)?; // workers, depth of the cutting, nodes of a piece
//! let best = search(rt, alloc, &problem, plan, &FreeTurn)?;
//! ```
//!
//! `specs/` defines these words: a plan, a piece and a sound answer about it, and the rule of the words that workers
//! share. A contract sees a [`Plan`] as its three numbers, and a selection as its list of acceptances. Only tests show
//! that the number of visited nodes in an answer is the number visited, that few are visited if the limit on nodes
//! can't stop the search, and that the incumbent is read at each; the least limit on nodes with which a search ends;
//! that the first selection is a good one; that a turnstile is called with the piece's number; that pieces are walked
//! at the same time, and that one worker reads the offers of another; and that a search reports out of memory only if
//! memory has run out.
//!
//! The crate doesn't know how prices are found. It doesn't know texts.
#![tactic(auto)]

mod answer;
mod collect;
mod conflicts;
mod decision_order;
mod drawn_pieces;
mod fault;
mod first_selection;
mod incumbent;
pub mod laws;
mod node;
mod piece_start;
mod prefix;
mod prefix_walk;
mod price_oracle;
mod price_walk;
mod search_by_workers;
mod search_context;
mod search_without_threads;
mod view;
mod walk_state;
mod welfare;
mod words;
mod worker_seat;
mod workers;

pub use answer::PieceAnswer;
pub use dam_plan::{FreeTurn, MOST_CUT, MOST_NODES, MOST_WORKERS, NodeCount, Plan, Turnstile};
pub use fault::SearchFault;
pub use search_by_workers::search;
pub use search_without_threads::search_alone;
pub use view::View;

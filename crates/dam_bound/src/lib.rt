//! The bounds of a search over the blocks of a problem: how great the welfare of a selection can be that agrees with
//! some decisions.
//!
//! ```
//! let curves = ClassCurves::of(alloc, &problem)?;
//! let mut pricing = Pricing::placeholder();
//! curves.write_pricing(Selection::none(), &[0, 1, 2], &mut pricing); // prices for selections of three blocks
//! let bound = pricing.bound(Selection::none().with(0), &[1, 2]); // of those that accept block 0
//! let selection = Selection::none().with(0).with(2);
//! let mut prices = ClassPrices::placeholder();
//! if let Some(welfare) = curves.price_selection(selection, &pricing, 0, &mut prices) { // None if it is under 0, or doesn't balance
//!     let loses = curves.has_loss(selection, &prices);
//! }
//! let rivals = curves.are_rivals(0, 1); // if true, no eligible selection accepts both
//! let limits = curves.net_limits(); // that every eligible selection keeps
//! let slack = limits.slack_after(&limits.slack(), 0, true); // if None, no eligible selection accepts block 0
//!
//! let relaxed = Relaxed::build(alloc, &problem)?;
//! let relaxed_welfare = relaxed.bound(Selection::none().with(0), 1); // block 0 accepted, the others open
//! ```
//!
//! At any prices, the welfare of a selection is at most the surplus of all hourly orders and the gains of its blocks at
//! these prices. That is a [`Pricing`]; it bounds every selection. Two periods are in one class if every block has the
//! same volume in both, so that any selection gives both the same net volume. [`ClassCurves`] has for each class the
//! joint welfare of its hourly orders over the net volume, as segments (`dam_curve`). The line through a segment is nowhere
//! below the curve, and the lines of all classes make a pricing.
//!
//! The relaxed welfare of a prefix ([`Relaxed::bound`]) lets each block after it be executed in part, in each period
//! apart from the others. It is found by clearing each period, and bounds the completions of the prefix.
//!
//! `specs/` defines these words: bounds by prices and open selections, prefixes and their completions, the relaxed
//! welfare, the live count, and the classes. A contract sees a [`ClassCurves`] or a [`Relaxed`] as the problem that it was
//! built from, without its rows. Only tests show how tight bounds by prices are, which rivals
//! are found, and that a call reports out of memory only if memory was refused.
//!
//! The crate doesn't know exclusive groups. Its code doesn't look at which selections are admissible. The only links it
//! knows are which block descends from which.
#![tactic(auto)]

mod block_numbers;
mod class_curves;
mod class_making;
mod class_prices;
mod classes;
mod families;
pub mod laws;
mod levels;
mod net_limit_making;
mod net_limits;
mod pricing;
mod relaxed;
mod rivals;

pub use class_curves::ClassCurves;
pub use class_prices::ClassPrices;
pub use families::{ancestors_of, descendants_of};
pub use net_limits::{MOST_LIMITS, NetLimit, NetLimits, Slack};
pub use pricing::Pricing;
pub use relaxed::Relaxed;

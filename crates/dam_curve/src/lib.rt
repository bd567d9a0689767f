//! The greatest welfare of periods as a function of the net volume, in straight segments.
//!
//! The price of a period changes only where the volume of an order ends. Between two such net volumes the greatest
//! welfare is a segment: the price times the net volume, plus the surplus of all orders at that price. For
//! several periods at the same net volume the sum is segments, too: the sum of their prices times the net volume,
//! plus the sum of their surpluses.
//!
//! The line of a segment lies over the greatest welfare at each net volume, also where the segment doesn't hold. Where it
//! holds, its price is the sum of the periods' clearing prices, except at its greatest net volume: there several prices
//! may support a period, and the segment keeps the sum of the clearing prices, too.
//!
//! ```
//! let supply = Supply::of(alloc, &steps)?; // the steps of a period, by one sort
//! let mut sum = CurveSum::new(alloc);
//! sum.restart(-500, 500)?; // from 50 MW bought to 50 MW sold, so far over no period
//! sum.add(&supply)?;
//! let mut curves = Curves::new(alloc);
//! let curve = curves.add(&sum)?;
//! let point = curves.point(curve, 120); // the welfare and the price of `Hour::clear` at this net volume
//! let range = curves.price_range(curve); // from the price at the greatest net volume to that at the least
//! let nets = curve.net_range(); // from the least net volume at which the periods balance to the greatest
//! let line = curves.line_near(curve, 120); // over the welfare at each net volume from -500 to 500
//! ```
//!
//! A contract sees the segments of all curves. It asks of a curve which periods it is of, and between which net volumes.
//! Only tests show that a line touches the welfare, that the ends of a range of prices are prices, and that a call reports
//! out of memory only if memory was refused, or if more than 2^32 - 1 segments or hints would be held.
//!
//! The crate doesn't know blocks or books.
#![tactic(auto)]

mod curves;
mod height;
pub mod laws;
mod line;
mod net_range;
mod point;
mod price_range;
mod segment;
mod sum;
mod supply;

pub use curves::{Curve, Curves};
pub use line::Line;
pub use net_range::NetRange;
pub use point::Point;
pub use price_range::PriceRange;
pub use sum::CurveSum;
pub use supply::Supply;

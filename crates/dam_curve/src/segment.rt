//! A straight piece of a curve, with one price along it and one at its greatest net volume.

ghost use Rattle.std.specs.Prelude.{◌≡◌};
ghost use Rattle.dam_curve.specs.declared.line.Line.{Line};
ghost use Rattle.dam_curve.specs.inside.Segments.{price_at};

use crate::line::Line;

/// A straight piece of a curve. It holds from its greatest net volume down to the next segment's, and the last one at
/// its greatest net volume alone.
#[derive(Clone, Copy)]
pub(crate) struct Segment {
    /// The greatest net volume at which it holds, in tenths of a MW.
    pub(crate) most: i32,
    /// The clearing prices of the periods between its greatest net volume and the next segment's, added up, in cents
    /// per MWh.
    pub(crate) price: i32,
    /// The clearing prices of the periods at its greatest net volume, added up, in cents per MWh.
    pub(crate) end_price: i32,
    /// The surplus of all orders of the periods at the price, in cents per MWh times tenths of a MW.
    pub(crate) surplus: i64,
}

impl Segment {
    /// The clearing prices of the periods, added up, at a net volume at which no later segment holds.
    #[inline(always)]
    pub(crate) fn price_at(self, net: i64) -> i32
        ensures { result ≡ price_at self net }
    {
        if i64::from(self.most) == net {
            self.end_price
        } else {
            self.price
        }
    }

    /// The line on which the segment lies.
    #[inline(always)]
    pub(crate) fn line(self) -> Line
        ensures { result ≡ record { price = self.price; surplus = self.surplus } }
    {
        Line {
            price: self.price,
            surplus: self.surplus,
        }
    }
}

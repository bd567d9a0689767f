//! Any prices of periods give a line that their greatest welfare never exceeds.

ghost use Rattle.std.specs.Prelude.{◌≡◌, ◌^◌, pos, neg_ℤ, ◌≤ℤ◌};
ghost use Rattle.dam_book.specs.Limits.{last_period};
ghost use Rattle.dam_curve.specs.Line.{line_value, IsSmallLine};

/// A straight line over the net volume, in cents per MWh times tenths of a MW: the surplus, plus the price times the
/// net volume.
///
/// At any prices of some periods, the welfare of their orders is at most the surplus of all orders at these prices,
/// plus the prices times the net volume. That is a line over their greatest welfare: its price is the prices, added up.
#[derive(Clone, Copy, PartialEq, Eq, Debug)]
pub struct Line {
    /// The prices of the periods, added up, in cents per MWh.
    pub price: i32,
    /// The surplus of all orders of the periods at these prices, in cents per MWh times tenths of a MW.
    pub surplus: i64,
}

impl Line {
    /// The value at a net volume.
    #[inline(always)]
    pub fn value(self, net: i64) -> i64
        requires line { IsSmallLine last_period self }
        requires least { neg_ℤ (pos (2 ^ 31)) ≤ℤ net }
        requires most { net ≤ℤ pos (2 ^ 31) }
        ensures { result ≡ line_value self net }
    {
        self.surplus + i64::from(self.price) * net
    }
}

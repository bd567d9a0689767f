//! A price counted from the least one, so that it has no sign.

ghost use Rattle.std.specs.Prelude.{◌≡◌, ◌≤◌};
ghost use Rattle.dam_hour.specs.Limits.{price_span};
ghost use Rattle.dam_curve.specs.Supply.{height_of};

use dam_book::{LOWEST_PRICE, Price};

/// The cents from the least price up to this one.
pub(crate) fn cents_above_lowest(price: Price) -> u32
    ensures value { result ≡ height_of price }
    ensures small { result ≤ price_span }
{
    (price.get() - LOWEST_PRICE) as u32
}

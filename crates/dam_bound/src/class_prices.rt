//! The prices at which a selection clears, as one sum for each class of periods.

ghost use Rattle.std.specs.Prelude.{◌≡◌, pos, replicate};
ghost use Rattle.dam_book.specs.Limits.{last_period};

use dam_blocks::MOST_PERIODS;

/// The prices of the classes of periods at which a selection clears. `ClassCurves::price_selection` writes them.
#[derive(Clone, Copy)]
pub struct ClassPrices {
    /// For each class, at the place of its first period, the clearing prices of its periods, added up, in cents per MWh.
    /// The numbers at other places are unspecified.
    pub prices: [i32; MOST_PERIODS],
}

impl ClassPrices {
    /// Zeros to be written over.
    pub fn placeholder() -> ClassPrices
        ensures { result ≡ record { prices = replicate last_period (pos 0) } }
    {
        ClassPrices {
            prices: [0; MOST_PERIODS],
        }
    }
}

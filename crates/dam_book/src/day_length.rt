//! The number of periods of a day, checked once: 23, 24 or 25 hours, or four times as many quarters.

ghost use Rattle.std.specs.Prelude.{◌≡◌, true, SomeIff};
ghost use Rattle.dam_book.specs.Book.{is_day};

use std::marker::Model;

/// The length of a delivery day, in periods: 24 hours, or one less or more if the clocks change; or four times as many
/// quarter-hours.
///
/// A contract sees the number.
#[derive(Clone, Copy, PartialEq, Eq, Debug)]
pub struct DayLength {
    periods: u8,
}

impl Model for DayLength {
    ghost use Rattle.std.specs.Prelude.{◌≡◌, ℕ, true};
    ghost use Rattle.dam_book.specs.Book.{is_day};

    ghost Value = { ℕ };

    ghost view = { λ d. d.periods };

    ghost invariant = { λ d. is_day d.periods ≡ true };

    ghost inverse = { λ n. record { periods = n } };
}

impl DayLength {
    /// The length of a day of 23, 24, 25, 92, 96 or 100 periods; `None` for every other number.
    pub fn new(periods: u8) -> Option<DayLength>
        ensures { SomeIff result (is_day periods ≡ true) periods }
    {
        if matches!(periods, 23 | 24 | 25 | 92 | 96 | 100) {
            Some(DayLength { periods })
        } else {
            None
        }
    }

    /// The number of periods.
    pub fn get(self) -> u8
        ensures value { result ≡ self }
        ensures day { is_day self ≡ true }
    {
        self.periods
    }
}

//! A welfare in its two types: a solution's is never below 0, and bounds and welfares of any selection have a sign.

ghost use Rattle.std.specs.Prelude.{◌≡◌, ◌^◌, ◌<◌, pos, ◌≤ℤ◌};

use dam_blocks::{Selection, Solution};

/// The welfare with a sign.
pub(crate) fn signed_welfare(welfare: u64) -> i64
    requires { welfare < 2 ^ 63 }
    ensures { result ≡ pos welfare }
{
    welfare as i64
}

/// The welfare without a sign.
pub(crate) fn unsigned_welfare(welfare: i64) -> u64
    requires { pos 0 ≤ℤ welfare }
    ensures { pos result ≡ welfare }
{
    welfare as u64
}

/// A `Solution` of the selection and its welfare.
pub(crate) fn solution_of(selection: Selection, welfare: i64) -> Solution
    requires { pos 0 ≤ℤ welfare }
    ensures selection { result.selection ≡ selection }
    ensures welfare { pos result.welfare ≡ welfare }
{
    Solution {
        selection,
        welfare: unsigned_welfare(welfare),
    }
}

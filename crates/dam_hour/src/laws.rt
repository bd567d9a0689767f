//! The laws of the definitions, each the contract of a function that does nothing.
//!
//! A caller that needs one of them in a proof calls the function, at no cost.

ghost use Rattle.std.specs.Prelude.{◌≡◌, ◌↔◌, ℕ, ◌+◌, ◌≤◌, ℤ, pos, ◌+ℤ◌, ◌-ℤ◌, ◌*ℤ◌, ◌≤ℤ◌, ◌<ℤ◌, List, ◌++◌, length, slice_get, Some, None};
ghost use Rattle.std.specs.Int.{int_div_euclid};
ghost use Rattle.dam_book.specs.declared.order.Side.{Side};
ghost use Rattle.dam_book.specs.declared.order.Side.TheVariants.{Buy, Sell};
ghost use Rattle.dam_book.specs.Limits.{lowest_price, highest_price};
ghost use Rattle.dam_hour.specs.declared.step.Step.{Step};
ghost use Rattle.dam_hour.specs.Limits.{most_steps, greatest_net};
ghost use Rattle.dam_hour.specs.Execution.{AreInRange, IsExecution, executed_volume, Balances, IsWithinOffers, IsBalanced, IsUnbalanced};
ghost use Rattle.dam_hour.specs.Price.{Supports, IsSupporting, AreEnds, price_between};
ghost use Rattle.dam_hour.specs.Best.{AreSmall, IsBest, welfare_of, execution_surplus, greatest_welfare};

use crate::hour::{GREATEST_NET, MOST_STEPS};

/// Each exported constant is the number of its limit. The limits are these numbers, as is the price of a period whose
/// supporting prices are all prices.
pub fn limits()
    ensures steps { MOST_STEPS ≡ most_steps }
    ensures net { GREATEST_NET ≡ pos greatest_net }
    ensures steps_is { most_steps ≡ 4024 }
    ensures net_is { greatest_net ≡ 2399976 }
    ensures middle_is { price_between lowest_price highest_price ≡ pos 175000 }
{}

/// The exchange law: the supporting prices are all whole cents from the one end to the other, and
/// each of them supports the best execution.
///
/// So at the price of the period no hourly order loses, and none that is better than it is cut.
pub fn prices_between_ends_support()
    ensures prices { (steps : List Step) (net low high p : ℤ) → AreEnds steps net low high
        → IsSupporting steps net p ↔ ((low ≤ℤ p) × (p ≤ℤ high)) }
    ensures best { (steps : List Step) (net low high p : ℤ) (xs : List ℕ)
        → AreEnds steps net low high → IsBest steps net xs → low ≤ℤ p → p ≤ℤ high
        → Supports p steps xs }
{}

/// Some execution balances exactly if the net volume is from minus all sells to all buys.
pub fn balances_within_offers()
    ensures within { (steps : List Step) (net : ℤ) (xs : List ℕ)
        → IsExecution steps xs → Balances steps net xs → IsWithinOffers steps net }
    ensures exists { (steps : List Step) (net : ℤ)
        → IsWithinOffers steps net → IsBalanced steps net }
{}

/// For steps whose limits and volumes are in range: if an execution balances, there is a best one, and
/// there are a least and a greatest supporting price.
pub fn best_execution_exists()
    ensures ends { (steps : List Step) (net : ℤ)
        → AreInRange steps → IsWithinOffers steps net
        → (low : ℤ) × (high : ℤ) × AreEnds steps net low high }
    ensures best { (steps : List Step) (net : ℤ)
        → AreInRange steps → IsWithinOffers steps net
        → (xs : List ℕ) × IsBest steps net xs }
{}

/// There is one least and one greatest supporting price, and one best execution.
pub fn best_execution_is_unique()
    ensures ends { (steps : List Step) (net low high other_low other_high : ℤ)
        → AreEnds steps net low high → AreEnds steps net other_low other_high
        → (low ≡ other_low) × (high ≡ other_high) }
    ensures best { (steps : List Step) (net : ℤ) (xs ys : List ℕ)
        → IsBest steps net xs → IsBest steps net ys → xs ≡ ys }
{}

/// The cases of the period's price, of which one applies; the price lies between the ends.
pub fn price_is_between_ends()
    ensures between { (low high : ℤ) → low ≤ℤ high
        → (low ≤ℤ price_between low high) × (price_between low high ≤ℤ high) }
    ensures low_open { (high : ℤ) → high <ℤ highest_price
        → price_between lowest_price high ≡ high }
    ensures high_open { (low : ℤ) → lowest_price <ℤ low
        → price_between low highest_price ≡ low }
    ensures inside { (low high : ℤ) → lowest_price <ℤ low → high <ℤ highest_price
        → price_between low high ≡ int_div_euclid (low +ℤ high) (pos 2) }
    ensures all_open { price_between lowest_price highest_price
        ≡ int_div_euclid (lowest_price +ℤ highest_price) (pos 2) }
{}

/// The greatest welfare as a function of the net volume is the best execution's, and there is none
/// exactly if nothing balances.
pub fn best_has_greatest_welfare()
    ensures best { (steps : List Step) (net : ℤ) (xs : List ℕ)
        → IsBest steps net xs → greatest_welfare steps net ≡ Some (welfare_of steps xs) }
    ensures reached { (steps : List Step) (net w : ℤ) → greatest_welfare steps net ≡ Some w
        → (xs : List ℕ) × IsExecution steps xs × Balances steps net xs
        × (welfare_of steps xs ≡ w) }
    ensures bound { (steps : List Step) (net w : ℤ) → greatest_welfare steps net ≡ Some w
        → (xs : List ℕ) → IsExecution steps xs → Balances steps net xs
        → welfare_of steps xs ≤ℤ w }
    ensures some { (steps : List Step) (net : ℤ)
        → IsBalanced steps net → (w : ℤ) × (greatest_welfare steps net ≡ Some w) }
    ensures none { (steps : List Step) (net : ℤ)
        → (greatest_welfare steps net ≡ None) ↔ IsUnbalanced steps net }
{}

/// The welfare of a balanced execution is its surplus at any price and that price times the net
/// volume; and at a price that supports it the surplus is at least 0, and the greatest there is.
pub fn supported_surplus_is_greatest()
    ensures welfare { (p net : ℤ) (steps : List Step) (xs : List ℕ)
        → Balances steps net xs
        → welfare_of steps xs ≡ execution_surplus p steps xs +ℤ p *ℤ net }
    ensures at_least_zero { (p : ℤ) (steps : List Step) (xs : List ℕ)
        → IsExecution steps xs → Supports p steps xs
        → pos 0 ≤ℤ execution_surplus p steps xs }
    ensures greatest { (p : ℤ) (steps : List Step) (xs ys : List ℕ)
        → IsExecution steps xs → Supports p steps xs → IsExecution steps ys
        → execution_surplus p steps ys ≤ℤ execution_surplus p steps xs }
{}

/// Bounds on any execution of some steps. The bought and the sold volume, in tenths of a MW, are
/// each at most the number of steps times the greatest volume. The welfare, in cents per MWh times
/// tenths of a MW, has at most the size of the number of steps times the greatest price times the
/// greatest volume, above 0 or below.
pub fn executions_are_small()
    ensures { (steps : List Step) (xs : List ℕ) → AreInRange steps → IsExecution steps xs
        → AreSmall (length steps) (executed_volume Buy steps xs) (executed_volume Sell steps xs)
        (welfare_of steps xs) }
{}

/// An execution has one volume for each step, and none is greater than its step's own.
pub fn executions_fit_steps()
    ensures length { (steps : List Step) (xs : List ℕ)
        → IsExecution steps xs → length xs ≡ length steps }
    ensures at_most { (steps : List Step) (xs : List ℕ) (place : ℕ) (step : Step) (x : ℕ)
        → IsExecution steps xs → slice_get steps place ≡ Some step
        → slice_get xs place ≡ Some x
        → x ≤ step.qty }
{}

/// The executions of some steps followed by others are an execution of the first, followed by an
/// execution of the others; their executed volumes and their welfare add up.
pub fn executions_join()
    ensures joined { (first second : List Step) (xs ys : List ℕ)
        → IsExecution first xs → IsExecution second ys
        → IsExecution (first ++ second) (xs ++ ys) }
    ensures parted { (first second : List Step) (zs : List ℕ) → IsExecution (first ++ second) zs
        → (xs : List ℕ) × (ys : List ℕ) × (zs ≡ xs ++ ys)
        × IsExecution first xs × IsExecution second ys }
    ensures volume { (side : Side) (first second : List Step) (xs ys : List ℕ)
        → IsExecution first xs → executed_volume side (first ++ second) (xs ++ ys)
        ≡ executed_volume side first xs + executed_volume side second ys }
    ensures welfare { (first second : List Step) (xs ys : List ℕ) → IsExecution first xs
        → welfare_of (first ++ second) (xs ++ ys)
        ≡ welfare_of first xs +ℤ welfare_of second ys }
{}

/// The price of the period supports the best execution: no hourly order loses at it, and none that is
/// better than it is cut.
pub fn price_supports_best()
    ensures { (steps : List Step) (net low high : ℤ) (xs : List ℕ)
        → AreEnds steps net low high → IsBest steps net xs
        → Supports (price_between low high) steps xs }
{}

/// The prices fall as the net volume rises: no price that supports a balanced execution is above one that supports an
/// execution at a smaller net volume, and so it is with the prices of the period.
pub fn prices_fall_as_net_rises()
    ensures supporting { (steps : List Step) (net other p q : ℤ)
        → IsSupporting steps net p → IsSupporting steps other q → net <ℤ other
        → q ≤ℤ p }
    ensures price { (steps : List Step) (net other low high other_low other_high : ℤ)
        → AreEnds steps net low high → AreEnds steps other other_low other_high
        → net ≤ℤ other
        → price_between other_low other_high ≤ℤ price_between low high }
{}

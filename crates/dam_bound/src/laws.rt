//! The laws of the definitions, each the contract of a function that does nothing.
//!
//! A caller that needs one of them in a proof calls the function, at no cost.

ghost use Rattle.std.specs.Prelude.{◌≡◌, ◌<◌, ◌≤◌, ◌≤ℤ◌, ◌+ℤ◌, ◌⊎◌, ℕ, ℤ, true, false, Some, None};
ghost use Rattle.std.specs.Prelude.{pos, List, [], ◌∷◌, ◌++◌, Bool, length, slice_set, slice_index_or};
ghost use Rattle.dam_book.specs.Limits.{most_blocks};
ghost use Rattle.dam_blocks.specs.Problem.{ProblemState, IsProblem};
ghost use Rattle.dam_blocks.specs.Selection.{accepts, padded, IsAdmissible};
ghost use Rattle.dam_blocks.specs.Eligible.{selection_welfare, ArePrices};
ghost use Rattle.dam_blocks.specs.Magnitude.{IsWithin, greatest_selection_welfare};
ghost use Rattle.dam_bound.specs.Prefix.{IsCompletion};
ghost use Rattle.dam_bound.specs.Open.{IsOpen, AreFree};
ghost use Rattle.dam_bound.specs.Prices.{IsByLines, IsPricing, bound_of, over_gains};
ghost use Rattle.dam_bound.specs.Relaxed.{relaxed_welfare};
ghost use Rattle.dam_bound.specs.declared.pricing.Pricing.{Pricing};

/// The bound law: no completion of a prefix, admissible or not, has a welfare above the relaxed
/// welfare of the prefix; and if there is no relaxed welfare, no completion balances every
/// period.
pub fn relaxed_welfare_bounds_completions()
    ensures most { (problem : ProblemState) (prefix sel : List Bool) (w : ℤ)
        → IsCompletion prefix sel → selection_welfare problem sel ≡ Some w
        → (r : ℤ) × (relaxed_welfare problem prefix ≡ Some r) × (w ≤ℤ r) }
    ensures none { (problem : ProblemState) (prefix sel : List Bool) → IsCompletion prefix sel
        → relaxed_welfare problem prefix ≡ None → selection_welfare problem sel ≡ None }
{
    dam_hour::laws::executions_join();
    dam_hour::laws::best_has_greatest_welfare();
    dam_hour::laws::executions_are_small();
    dam_blocks::laws::sums_split_at_fronts();
}

/// The completions of a prefix are the completions of its two extensions by the next block. The
/// prefix with no other block accepted is one of them; and if every block is decided, it is the
/// only one that can be admissible.
pub fn completions_split()
    ensures extended { (prefix sel : List Bool) → length prefix < most_blocks
        → IsCompletion prefix sel
        → IsCompletion (prefix ++ true ∷ []) sel ⊎ IsCompletion (prefix ++ false ∷ []) sel }
    ensures shortened { (prefix rest sel : List Bool) → IsCompletion (prefix ++ rest) sel
        → IsCompletion prefix sel }
    ensures padded { (prefix : List Bool) → length prefix ≤ most_blocks
        → IsCompletion prefix (padded prefix) }
    ensures all { (sel : List Bool) → length sel ≡ most_blocks → IsCompletion [] sel }
    ensures only { (problem : ProblemState) (prefix sel : List Bool)
        → length problem.blocks ≤ length prefix → IsCompletion prefix sel
        → IsAdmissible problem.blocks sel → sel ≡ padded prefix }
{}

/// A bound on the size of a relaxed welfare, the same as of a selection's welfare. Every hourly order, and
/// every block in every period, counts at most the greatest price times the greatest volume.
pub fn relaxed_welfare_is_small()
    ensures { (problem : ProblemState) (prefix : List Bool) (w : ℤ) → IsProblem problem
        → relaxed_welfare problem prefix ≡ Some w → IsWithin greatest_selection_welfare w }
{
    dam_hour::laws::executions_join();
    dam_hour::laws::best_has_greatest_welfare();
    dam_hour::laws::executions_are_small();
    dam_blocks::laws::sums_split_at_fronts();
}

/// At the prices of lines over the classes, the surplus of all hourly orders and of the blocks of a selection is no
/// less than the welfare of the selection.
pub fn lines_bound_welfare()
    ensures { (problem : ProblemState) (pricing : Pricing) (selection : List Bool) (w : ℤ)
        → IsByLines problem pricing → selection_welfare problem selection ≡ Some w
        → w ≤ℤ (pricing.base +ℤ over_gains pricing.gains selection) }
{}

/// A selection with which every period balances has a price in each of them.
pub fn balanced_selections_have_prices()
    ensures { (problem : ProblemState) (sel : List Bool) (w : ℤ) → IsProblem problem
        → selection_welfare problem sel ≡ Some w
        → (prices : List ℤ) × ArePrices problem.blocks sel 1 problem.hours prices }
{
    dam_hour::laws::best_has_greatest_welfare();
    dam_hour::laws::balances_within_offers();
    dam_hour::laws::best_execution_exists();
}

/// An open selection has no more welfare than the bound of a pricing, with each open place at its gain if that is above 0.
pub fn pricing_bounds_open_selections()
    ensures { (problem : ProblemState) (pricing : Pricing) (accepted selection : List Bool)
        (undecided : List ℕ) (w : ℤ)
        → IsPricing problem pricing → length accepted ≡ most_blocks → AreFree accepted undecided
        → IsOpen accepted undecided selection → selection_welfare problem selection ≡ Some w
        → w ≤ℤ bound_of pricing accepted undecided }
{}

/// The gains of a selection that accepts one place more are greater by the gain of that place.
pub fn gains_add_up()
    ensures { (gains : List ℤ) (selection : List Bool) (place : ℕ) → place < length gains
        → place < length selection → accepts selection place ≡ false
        → over_gains gains (slice_set selection place true)
        ≡ over_gains gains selection +ℤ slice_index_or gains place (pos 0) }
{}

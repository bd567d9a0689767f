//! The laws of the definitions, each the contract of a function that does nothing but cite the laws
//! that it rests on.
//!
//! A caller that needs one of them in a proof calls the function, at no cost.

ghost use Rattle.std.specs.Prelude.{◌≡◌, ◌≢◌, ◌↔◌, true, false, ◌+◌, ◌*◌, ◌<◌, ◌^◌, ◌+ℤ◌, ◌≤ℤ◌, ◌<ℤ◌, ◌⊎◌, ℕ, ℤ, pos, Some, List, ◌++◌, Bool, ◌&&◌, length, drop, slice_get};
ghost use Rattle.dam_book.specs.Terms.{BlockTerms};
ghost use Rattle.dam_book.specs.Limits.{greatest_volume, last_period, most_hourly, most_blocks};
ghost use Rattle.dam_hour.specs.Limits.{greatest_price, price_span};
ghost use Rattle.dam_blocks.specs.declared.problem.Block.{Block};
ghost use Rattle.dam_blocks.specs.declared.scoring.Verdict.{Verdict};
ghost use Rattle.dam_blocks.specs.declared.scoring.Verdict.TheVariants.{Eligible};
ghost use Rattle.dam_blocks.specs.Problem.{ProblemState, IsProblem, IsParent};
ghost use Rattle.dam_blocks.specs.Selection.{accepts, padded, empty_selection, choice, over_accepted, are_of_one_group, IsAdmissible};
ghost use Rattle.dam_blocks.specs.Family.{names, parent_place, descends, accepted_descendants, IsChildAt, Descends};
ghost use Rattle.dam_blocks.specs.Eligible.{selection_welfare, IsEligible};
ghost use Rattle.dam_blocks.specs.Magnitude.{IsWithin, greatest_hourly_value, greatest_block_value, greatest_surplus, greatest_selection_welfare};
ghost use Rattle.dam_blocks.specs.Score.{IsVerdict};
ghost use Rattle.dam_blocks.specs.Result.{accepts_first, RanksAbove, RanksAtOrBelow, IsResult};

use crate::problem::MOST_PERIODS;

/// The exported constant is the number of its limit. The greatest value of all hourly orders and of all
/// blocks, surplus of one block and welfare of a selection are these products of the limits, which are these
/// numbers. The greatest welfare, and the greatest surpluses of all blocks, fit in an `i64`.
pub fn limits()
    ensures periods { MOST_PERIODS ≡ last_period }
    ensures hourly_value { greatest_hourly_value
        ≡ most_hourly * (greatest_price * greatest_volume) }
    ensures block_value { greatest_block_value
        ≡ (most_blocks * last_period) * (greatest_price * greatest_volume) }
    ensures surplus { greatest_surplus ≡ last_period * (price_span * greatest_volume) }
    ensures selection_welfare { greatest_selection_welfare
        ≡ (most_hourly + most_blocks * last_period) * (greatest_price * greatest_volume) }
    ensures hourly_value_is { greatest_hourly_value ≡ 159998400000000 }
    ensures block_value_is { greatest_block_value ≡ 95999040000000 }
    ensures surplus_is { greatest_surplus ≡ 4499955000000 }
    ensures selection_welfare_is { greatest_selection_welfare ≡ 255997440000000 }
    ensures welfare_fits { greatest_selection_welfare < 2 ^ 63 }
    ensures surpluses_fit { most_blocks * greatest_surplus < 2 ^ 63 }
{}

/// The empty selection is eligible.
pub fn empty_is_eligible()
    ensures { (problem : ProblemState) → IsProblem problem
        → (w : ℤ) × IsEligible problem empty_selection w }
{
    dam_hour::laws::best_execution_exists();
    dam_hour::laws::best_has_greatest_welfare();
}

/// An eligible selection has a welfare of at least 0: at the prices no hourly order loses, and the
/// accepted blocks together don't either.
pub fn eligible_welfare_is_not_negative()
    ensures { (problem : ProblemState) (selection : List Bool) (w : ℤ) → IsProblem problem
        → IsEligible problem selection w → pos 0 ≤ℤ w }
{
    dam_hour::laws::price_is_between_ends();
    dam_hour::laws::prices_between_ends_support();
    dam_hour::laws::best_has_greatest_welfare();
    dam_hour::laws::supported_surplus_is_greatest();
}

/// The verdict on an eligible selection is that it is eligible, with its welfare, which is unique; and a
/// selection with another verdict isn't eligible.
pub fn verdict_tells_eligibility()
    ensures eligible { (problem : ProblemState) (selection : List Bool) (verdict : Verdict)
        (w : ℤ)
        → IsVerdict problem selection verdict → IsEligible problem selection w
        → (n : ℕ) × (w ≡ pos n) × (verdict ≡ Eligible n) }
    ensures other { (problem : ProblemState) (selection : List Bool) (verdict : Verdict) (w : ℤ)
        → IsVerdict problem selection verdict → ((n : ℕ) → verdict ≢ Eligible n)
        → ¬ (IsEligible problem selection w) }
    ensures one { (problem : ProblemState) (selection : List Bool) (v w : ℤ)
        → IsEligible problem selection v
        → IsEligible problem selection w → v ≡ w }
{}

/// A bound on the size of a selection's welfare: every hourly order, and every block in every period,
/// counts at most the greatest limit times the greatest volume.
pub fn selection_welfare_is_small()
    ensures { (problem : ProblemState) (selection : List Bool) (w : ℤ) → IsProblem problem
        → selection_welfare problem selection ≡ Some w
        → IsWithin greatest_selection_welfare w }
{
    dam_book::laws::days_are_short();
    dam_hour::laws::best_has_greatest_welfare();
}

/// The order of selections is a total one: the first of two ranks either above the second, or at or below it. Each
/// ranks at or below the other only if they are the same.
pub fn ranking_is_total()
    ensures either { (v w : ℤ) (xs ys : List Bool)
        → RanksAbove v xs w ys ⊎ RanksAtOrBelow v xs w ys }
    ensures apart { (v w : ℤ) (xs ys : List Bool) → RanksAbove v xs w ys
        → ¬ (RanksAtOrBelow v xs w ys) }
    ensures itself { (v : ℤ) (xs : List Bool) → RanksAtOrBelow v xs v xs }
    ensures transitive { (u v w : ℤ) (xs ys zs : List Bool)
        → length xs ≡ most_blocks → length ys ≡ most_blocks → length zs ≡ most_blocks
        → RanksAtOrBelow u xs v ys → RanksAtOrBelow v ys w zs → RanksAtOrBelow u xs w zs }
    ensures same { (v w : ℤ) (xs ys : List Bool)
        → length xs ≡ most_blocks → length ys ≡ most_blocks
        → RanksAtOrBelow v xs w ys → RanksAtOrBelow w ys v xs → (xs ≡ ys) × (v ≡ w) }
{}

/// The higher of two selections has the greater welfare, or the same, and then it accepts the first block at which the
/// two differ. The result ranks above each other eligible selection.
pub fn result_ranks_above_others()
    ensures above { (v w : ℤ) (xs ys : List Bool) → RanksAbove v xs w ys
        ↔ ((w <ℤ v) ⊎ ((w ≡ v) × (accepts_first xs ys ≡ true))) }
    ensures others { (problem : ProblemState) (selection : List Bool) (w : ℤ)
        → IsResult problem selection w
        ↔ (IsEligible problem selection w × ((other : List Bool) (v : ℤ)
        → IsEligible problem other v → other ≢ selection
        → RanksAbove w selection v other)) }
{}

/// A problem has a result.
pub fn result_exists()
    ensures { (problem : ProblemState) → IsProblem problem
        → (selection : List Bool) × ((w : ℤ) × IsResult problem selection w) }
{
    empty_is_eligible();
    dam_hour::laws::balances_within_offers();
    dam_hour::laws::best_execution_exists();
    dam_hour::laws::best_has_greatest_welfare();
}

/// A problem has one result at most.
pub fn result_is_unique()
    ensures { (problem : ProblemState) (xs ys : List Bool) (v w : ℤ) → IsResult problem xs v
        → IsResult problem ys w → (xs ≡ ys) × (v ≡ w) }
{}

/// A sum over the accepted blocks is that over a front of the list and that over the rest; the places
/// that a list of acceptances leaves out add nothing.
pub fn sums_split_at_fronts()
    ensures parted { (f : BlockTerms → ℤ) (blocks : List Block) (front rest : List Bool)
        → over_accepted f blocks (front ++ rest)
        ≡ over_accepted f blocks front +ℤ over_accepted f (drop (length front) blocks) rest }
    ensures padded { (f : BlockTerms → ℤ) (blocks : List Block) (front : List Bool)
        → over_accepted f blocks (padded front) ≡ over_accepted f blocks front }
{}

/// A place is among a block's accepted descendants exactly if the selection accepts it and it
/// descends from that block.
pub fn accepted_descendants_descend()
    ensures { (blocks : List Block) (selection : List Bool) (i j : ℕ)
        → accepts (accepted_descendants blocks selection i) j
        ≡ (accepts selection j && descends blocks i j) }
{}

/// Among the blocks of a problem, the one that a block names is its parent in the sense of the links, and the
/// one that stands at its parent's place; and a block descends from another exactly if it is its child, or
/// the child of one that descends from it.
pub fn descent_follows_parents()
    ensures named { (parent child : Block)
        → (names parent child ≡ true) ↔ IsParent parent child }
    ensures place { (problem : ProblemState) (i j : ℕ) → IsProblem problem
        → (parent_place problem.blocks j ≡ Some i) ↔ IsChildAt problem.blocks i j }
    ensures descends { (problem : ProblemState) (i j : ℕ) → IsProblem problem
        → (descends problem.blocks i j ≡ true) ↔ Descends problem.blocks i j }
{}

/// An admissible selection that accepts a block accepts each block that this one descends from, and no other one of its
/// exclusive group.
pub fn admissible_keeps_ancestors_and_groups()
    ensures ancestors { (problem : ProblemState) (selection : List Bool) (i j : ℕ)
        → IsProblem problem → IsAdmissible problem.blocks selection
        → descends problem.blocks i j ≡ true → accepts selection j ≡ true
        → accepts selection i ≡ true }
    ensures group { (blocks : List Block) (selection : List Bool) (i j : ℕ) (a b : Block)
        → IsAdmissible blocks selection → slice_get blocks i ≡ Some a
        → slice_get blocks j ≡ Some b
        → i ≢ j → are_of_one_group a b ≡ true → accepts selection i ≡ true
        → accepts selection j ≡ false }
{}

/// If a selection is admissible, so is each front of it with no other block: a block's parent stands
/// before it.
pub fn fronts_are_admissible()
    ensures { (problem : ProblemState) (front rest : List Bool) → IsProblem problem
        → IsAdmissible problem.blocks (front ++ rest)
        → IsAdmissible problem.blocks (padded front) }
{}

/// Every list of acceptances is just one of the numbered choices over that number of places, and an
/// admissible selection is one of the choices over the problem's blocks.
pub fn choices_are_all_selections()
    ensures each { (xs : List Bool)
        → (k : ℕ) × (k < 2 ^ length xs) × (choice (length xs) k ≡ xs) }
    ensures admissible { (problem : ProblemState) (selection : List Bool) → IsProblem problem
        → length selection ≡ most_blocks → IsAdmissible problem.blocks selection
        → (k : ℕ) × (k < 2 ^ length problem.blocks)
        × (padded (choice (length problem.blocks) k) ≡ selection) }
    ensures once { (n j k : ℕ) → j < 2 ^ n → k < 2 ^ n → choice n j ≡ choice n k
        → j ≡ k }
{}

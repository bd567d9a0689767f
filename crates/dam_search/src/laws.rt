//! The laws of the search, each the contract of a function that does nothing.
//!
//! A caller that needs one of them in a proof calls the function, at no cost.

ghost use mathlib.Core.Option.{some};
ghost use lib.ListN.{get_elem?};
ghost use Rattle.atomic_table.specs.Table.{State};
ghost use Rattle.dam_search.specs.declared.view.View.{View};
ghost use Rattle.dam_search.specs.Words.{most_seats, AreWords, AreClosedWords};
ghost use Rattle.std.specs.Prelude.{◌≡◌, ◌+◌, ◌≤◌, max, ℕ, pos, None, List, length, All};
ghost use Rattle.dam_blocks.specs.declared.selection.Solution.{Solution};
ghost use Rattle.dam_blocks.specs.Problem.{ProblemState, IsProblem};
ghost use Rattle.dam_blocks.specs.Result.{IsResult};
ghost use Rattle.dam_search.specs.declared.answer.PieceAnswer.{PieceAnswer};
ghost use Rattle.dam_plan.specs.Limits.{most_workers, most_cut, most_nodes};
ghost use Rattle.dam_search.specs.Answer.{AreAnswered, AreConclusive, IsReached};
ghost use Rattle.dam_search.specs.Answer.{greatest_found, IsHighest};

use dam_plan::{MOST_CUT, MOST_NODES, MOST_WORKERS};

/// The limits of a plan are the exported constants, and these numbers.
pub fn limits()
    ensures workers { most_workers ≡ MOST_WORKERS }
    ensures cut { most_cut ≡ MOST_CUT }
    ensures nodes { most_nodes ≡ MOST_NODES }
    ensures workers_is { most_workers ≡ 8 }
    ensures cut_is { most_cut ≡ 8 }
    ensures nodes_is { most_nodes ≡ 67108864 }
{}

/// The highest selection that conclusive answers found is the result, and they found one.
///
/// Sound answers about every piece, all of them done, are conclusive if no value read exceeds the greatest
/// welfare that they found, or the welfare of another eligible selection, such as one that was offered to
/// the workers before they started.
pub fn conclusive_answers_give_result()
    ensures result { (problem : ProblemState) (depth : ℕ) (answers : List PieceAnswer)
        (b : Solution) → AreConclusive problem depth answers
        → IsHighest answers b → IsResult problem b.selection (pos b.welfare) }
    ensures found { (problem : ProblemState) (depth : ℕ) (answers : List PieceAnswer)
        → AreConclusive problem depth answers → ¬ (All (λ a. a.best ≡ None) answers) }
    ensures conclusive { (problem : ProblemState) (depth : ℕ) (answers : List PieceAnswer)
        → IsProblem problem → depth ≤ length problem.blocks
        → AreAnswered problem depth answers
        → All (λ a. a.incumbent_read ≤ greatest_found answers) answers
        → AreConclusive problem depth answers }
    ensures offered { (problem : ProblemState) (depth first : ℕ) (answers : List PieceAnswer)
        → IsProblem problem → depth ≤ length problem.blocks
        → AreAnswered problem depth answers
        → IsReached problem first
        → All (λ a. a.incumbent_read ≤ max first (greatest_found answers)) answers
        → AreConclusive problem depth answers }
{
    dam_blocks::laws::empty_is_eligible();
    dam_blocks::laws::eligible_welfare_is_not_negative();
    dam_blocks::laws::ranking_is_total();
    dam_blocks::laws::result_exists();
    dam_blocks::laws::choices_are_all_selections();
}

/// The two words at their closing: if one seat has all seats joined into it, the claim word is the
/// number of its draws, which were every piece once if one of them was past the last piece; the
/// incumbent word is its greatest offer, and it read no more than that.
pub fn closed_words_count_pieces()
    ensures { (pieces seat : ℕ) (state : State (Unit {0}) View) (v : View)
        → AreWords pieces state → get_elem? state.views seat ≡ some v
        → v.seats + v.seats_left ≡ most_seats → AreClosedWords pieces state.words v }
{}

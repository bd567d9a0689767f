//! Laws of the published results, each the contract of a function that does nothing but cite the laws that it rests on.
ghost use Rattle.std.specs.Prelude.{◌≡◌, true, ℕ, ℤ, pos, List, Bool};
ghost use Rattle.dam_book.specs.Book.{BookState};
ghost use Rattle.dam_blocks.specs.Problem.{ProblemState, problem_of};
ghost use Rattle.dam_blocks.specs.Result.{IsResult};
ghost use Rattle.dam_results.specs.declared.published.PeriodResult.{PeriodResult};
ghost use Rattle.dam_results.specs.declared.published.RowResult.{RowResult};
ghost use Rattle.dam_results.specs.Published.{ArePublished};
ghost use Rattle.dam_results.specs.Clearing.{IsBestSelection, IsClearing};

/// A selection is published in one way at most.
pub fn selections_are_published_alike()
    ensures { (problem : ProblemState) (sel : List Bool) (welfare other : ℕ)
        (periods days : List PeriodResult) (rows others : List RowResult)
        → ArePublished problem sel welfare periods rows
        → ArePublished problem sel other days others
        → (welfare ≡ other) × (periods ≡ days) × (rows ≡ others) }
{
    dam_hour::laws::best_execution_is_unique();
}

/// The best selection of a problem is its result.
pub fn best_selection_is_result()
    ensures best { (problem : ProblemState) (sel : List Bool) (welfare : ℤ)
        → IsResult problem sel welfare → IsBestSelection problem sel welfare }
    ensures result { (problem : ProblemState) (sel : List Bool) (welfare : ℤ)
        → IsBestSelection problem sel welfare → IsResult problem sel welfare }
{
    dam_blocks::laws::ranking_is_total();
    dam_blocks::laws::verdict_tells_eligibility();
}

/// A closed book is cleared by the published results of its problem.
pub fn published_results_are_clearings()
    ensures { (book : BookState) (problem : ProblemState) (sel : List Bool) (found welfare : ℕ)
        (periods : List PeriodResult) (rows : List RowResult)
        → book.closed ≡ true → problem ≡ problem_of book
        → IsResult problem sel (pos found)
        → ArePublished problem sel welfare periods rows → IsClearing book welfare periods rows }
{
    best_selection_is_result();
}

/// A closed book is cleared in one way at most.
pub fn books_are_cleared_alike()
    ensures { (book : BookState) (welfare other : ℕ) (periods days : List PeriodResult)
        (rows others : List RowResult)
        → IsClearing book welfare periods rows → IsClearing book other days others
        → (welfare ≡ other) × (periods ≡ days) × (rows ≡ others) }
{
    best_selection_is_result();
    dam_blocks::laws::result_is_unique();
    selections_are_published_alike();
}

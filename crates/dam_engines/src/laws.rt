//! The laws of the engines, each the contract of a function that does nothing but cite the laws that it rests on.
ghost use Rattle.std.specs.Prelude.{◌≡◌, ◌≤◌, ℕ, List, length, Option, Result};
ghost use Rattle.dam_book.specs.Book.{BookState};
ghost use Rattle.dam_book.specs.declared.command.Command.{Command};
ghost use Rattle.dam_blocks.specs.Problem.{ProblemState, IsProblem, problem_of};
ghost use Rattle.dam_plan.specs.Limits.{most_nodes};
ghost use Rattle.dam_search.specs.Piece.{node_count};
ghost use Rattle.dam_plan.specs.Plan.{PlanTerms};
ghost use Rattle.dam_results.specs.Journal.{IsMadeFrom, ReadsAs};
ghost use Rattle.dam_results.specs.Replies.{AreReplies};
ghost use Rattle.dam_results.specs.Clearing.{IsResultsText};
ghost use Rattle.dam_engines.specs.declared.fault.RunFault.{RunFault};
ghost use Rattle.dam_engines.specs.declared.fault.RunFault.TheVariants.{Memory};
ghost use Rattle.dam_engines.specs.Engine.{Ends, IsRunFault, IsTextFault};
ghost use Rattle.dam_engines.specs.Clear.{AreResultsWithin, IsClearFault, IsCutShort};
ghost use Rattle.dam_engines.specs.Day.{IsCommandsFault, IsDayText};

use dam_results::laws::{fault_is_no_journal, text_is_one_journal};
use dam_results::publishing_laws::books_are_cleared_alike;

/// A closed book has one results text at most.
pub fn cleared_text_is_one()
    ensures { (book : BookState) (text other : List ℕ)
        → IsResultsText book text → IsResultsText book other → text ≡ other }
{
    books_are_cleared_alike();
}

/// If the text is a journal, a replay ends with the replies to its commands, or memory runs out, or a device fails.
pub fn replay_is_exact()
    ensures { (text : List ℕ) (periods : ℕ) (commands : List Command)
        (old new : Option (List ℕ)) (asked : ℕ) (result : Result (Unit {0}) RunFault)
        → ReadsAs text periods commands
        → Ends (IsMadeFrom AreReplies text) (IsTextFault text) old new asked result
        → Ends (AreReplies periods commands) (λ fault. fault ≡ Memory) old new asked result }
{
    text_is_one_journal();
    fault_is_no_journal();
}

/// If the text is a journal, a clearing ends with the results of the book that its commands make, or with a fault of
/// that book, or a device fails.
pub fn clearing_is_exact()
    ensures { (plan : PlanTerms) (text : List ℕ) (periods : ℕ) (commands : List Command)
        (old new : Option (List ℕ)) (asked : ℕ) (result : Result (Unit {0}) RunFault)
        → ReadsAs text periods commands
        → Ends (IsMadeFrom (AreResultsWithin plan) text) (IsRunFault (IsClearFault plan) text)
        old new asked result
        → Ends (AreResultsWithin plan periods commands) (IsClearFault plan periods commands)
        old new asked result }
{
    text_is_one_journal();
    fault_is_no_journal();
}

/// If the text is a journal, a day ends with the text of a day of its commands, or with a fault of these, or a device
/// fails.
pub fn day_is_exact()
    ensures { (plan : PlanTerms) (text : List ℕ) (periods : ℕ) (commands : List Command)
        (old new : Option (List ℕ)) (asked : ℕ) (result : Result (Unit {0}) RunFault)
        → ReadsAs text periods commands
        → Ends (IsMadeFrom (IsDayText plan) text) (IsRunFault (IsCommandsFault plan) text)
        old new asked result
        → Ends (IsDayText plan periods commands) (IsCommandsFault plan periods commands)
        old new asked result }
{
    text_is_one_journal();
    fault_is_no_journal();
}

/// A search over n blocks visits at most 2^(n+1) - 1 nodes. For the most blocks of a book, that is below the greatest limit
/// of a plan, so neither this limit nor a greater one cuts a search short.
pub fn greatest_limit_cuts_no_search()
    ensures covers { (problem : ProblemState) → IsProblem problem
        → node_count (length problem.blocks) ≤ most_nodes }
    ensures whole { (plan : PlanTerms) (book : BookState) (piece visited : ℕ)
        → IsProblem (problem_of book) → most_nodes ≤ plan.node_limit
        → ¬ (IsCutShort plan book piece visited) }
{}

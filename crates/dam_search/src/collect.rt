//! The result of a search from the workers' answers, if each piece has just one and each is done.

ghost use Rattle.std.specs.Prelude.{◌≡◌, ◌⊎◌, ◌<◌, ◌≤◌, ◌^◌, length, All, MatchOption};
ghost use Rattle.dam_plan.specs.Limits.{most_cut};
ghost use Rattle.dam_search.specs.Piece.{Rises};
ghost use Rattle.dam_search.specs.Search.{IsSearched};
ghost use Rattle.dam_search.specs.inside.Collect.{IsWorked, AreOneEach, IsFirstFaulty, AreAnswerCounts};
ghost use Rattle.dam_search.specs.inside.Collect.{is_lesser_unfinished, IsLeastUnfinished};
ghost use Rattle.dam_search.specs.inside.Collect.{IsLong, IsHighestFound, IsCollected};
ghost use Rattle.dam_search.specs.Words.{most_pieces};

use crate::answer::PieceAnswer;
use crate::fault::SearchFault;
use crate::laws;
use crate::walk_state::ranks_above_found;
use dam_blocks::{Problem, Solution};
use dam_plan::{MOST_CUT, NodeCount};
use std::alloc::Allocator;

/// The most pieces that a search is cut into.
const MOST_PIECES: usize = 1 << MOST_CUT;

/// The number of pieces of a cutting of this depth.
pub(crate) fn piece_count(depth: usize) -> u32
    requires { depth ≤ most_cut }
    ensures value { result ≡ 2 ^ depth }
    ensures few { result ≤ most_pieces }
{
    1 << depth
}

/// The number of answers about each piece, of which there are at most 256.
fn answer_counts(answers: &[PieceAnswer]) -> [usize; MOST_PIECES]
    requires { All (λ a. a.piece < most_pieces) answers.now }
    ensures { AreAnswerCounts answers.now result }
{
    let mut counts = [0; MOST_PIECES];
    for answer in answers {
        counts[answer.piece as usize] += 1;
    }
    counts
}

/// The first piece that has no answer or more than one.
fn first_faulty(answers: &[PieceAnswer], pieces: u32) -> Option<u32>
    requires few { pieces ≤ most_pieces }
    requires in_cutting { All (λ a. a.piece < most_pieces) answers.now }
    ensures { MatchOption result (AreOneEach answers.now pieces)
        (λ piece. (piece < pieces) × IsFirstFaulty answers.now piece) }
{
    let counts = answer_counts(answers);
    for piece in 0..pieces {
        if counts[piece as usize] != 1 {
            return Some(piece);
        }
    }
    None
}

/// Whether the answer isn't done, and is about a lesser piece than the one found so far.
fn is_lesser_unfinished(answer: &PieceAnswer, least: &Option<PieceAnswer>) -> bool
    ensures { result ≡ is_lesser_unfinished answer.now least.now }
{
    match least {
        Some(least) => !answer.done && answer.piece < least.piece,
        None => !answer.done,
    }
}

/// The answer about the least piece of those that aren't done.
fn least_unfinished(answers: &[PieceAnswer]) -> Option<PieceAnswer>
    ensures { IsLeastUnfinished answers.now result }
{
    let mut least = None;
    for answer in answers {
        if is_lesser_unfinished(answer, &least) {
            least = Some(*answer);
        }
    }
    least
}

/// The highest selection after this answer, if it was `best` before.
fn highest_after(best: Option<Solution>, answer: &PieceAnswer) -> Option<Solution>
    ensures either { (result ≡ best) ⊎ (result ≡ answer.now.best) }
    ensures before { Rises best result }
    ensures answer { Rises answer.now.best result }
{
    let Some(candidate) = answer.best else {
        return best;
    };
    if ranks_above_found(&candidate, &best) {
        Some(candidate)
    } else {
        best
    }
}

/// The highest of the selections that the answers found.
fn highest_found(answers: &[PieceAnswer]) -> Option<Solution>
    requires { All (λ a. IsLong a.best) answers.now }
    ensures { IsHighestFound answers.now result }
{
    dam_blocks::laws::ranking_is_total();
    let mut best = None;
    for answer in answers {
        best = highest_after(best, answer);
    }
    best
}

/// The result of the workers' answers, or the first fault. The first piece that lacks an answer or
/// has several comes before the least one that is unfinished.
pub(crate) fn result_of_answers<A: Allocator>(
    problem: &Problem<A>,
    depth: usize,
    node_limit: NodeCount,
    answers: &[PieceAnswer],
) -> Result<Solution, SearchFault>
    requires depth { depth ≤ length problem.now.blocks }
    requires few { depth ≤ most_cut }
    requires worked { All (λ a. IsWorked problem.now depth node_limit a) answers.now }
    ensures collected { IsCollected depth answers.now result }
    ensures searched { AreOneEach answers.now (2 ^ depth)
        → IsSearched problem.now depth node_limit result }
{
    laws::conclusive_answers_give_result();
    let _invariant = problem.periods(); // for the proof: the invariant of a problem
    if let Some(piece) = first_faulty(answers, piece_count(depth)) {
        return Err(SearchFault::AnswerMissingOrRepeated { piece });
    }
    if let Some(answer) = least_unfinished(answers) {
        return Err(SearchFault::Unfinished {
            piece: answer.piece,
            visited: answer.visited,
        });
    }
    match highest_found(answers) {
        Some(best) => Ok(best),
        None => unreachable!(),
    }
}

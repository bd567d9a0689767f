//! The work of one worker: it draws a piece, walks it and keeps the answer, until no piece is left.

ghost use Rattle.std.specs.Prelude.{◌≡◌, ◌^◌, IfOk, IfErr};
ghost use Rattle.dam_search.specs.Answer.{greatest_found};
ghost use Rattle.dam_search.specs.inside.Work.{IsFresh, AreAnswersOf};
ghost use Rattle.dam_search.specs.Words.{view_of};

use crate::answer::PieceAnswer;
use crate::price_oracle::PriceOracle;
use crate::search_context::SearchContext;
use crate::worker_seat::WorkerSeat;
use dam_plan::Turnstile;
use std::alloc::{AllocError, Allocator};

/// Walks each piece that the seat draws, until no piece is left.
///
/// It answers for just the pieces that its seat drew, in the order of the draws, with the context's limit on
/// each. It takes memory for an answer about every piece from `alloc` before the first draw: after a refusal
/// nothing was drawn, and it asks for nothing more later.
///
/// [`search`](crate::search) calls it once for each worker, on a thread of its own, with a fresh seat, made
/// for the pieces of the cutting. Every piece is answered only if all seats of the words have worked and
/// none was refused memory. A worker waits for nothing but the turnstile.
pub(crate) fn walk_drawn_pieces<A: Allocator, P: PriceOracle, T: Turnstile>(
    alloc: A,
    context: &SearchContext<P>,
    seat: &mut WorkerSeat,
    turnstile: &T,
) -> Result<Vec<PieceAnswer, A>, AllocError>
    requires fresh { IsFresh (2 ^ context.now.depth) (view_of seat.old.seat) }
    ensures answers { IfOk result (λ answers.
        AreAnswersOf context.now.problem.now context.now.depth
        context.now.node_limit 0 (view_of seat.new.seat) answers.items) }
    ensures offered { IfOk result (λ answers.
        (view_of seat.new.seat).greatest_offer ≡ greatest_found answers.items) }
    ensures stopped { IfOk result (λ _. (view_of seat.new.seat).draws_past_the_end ≡ 1) }
    ensures refused { IfErr result (λ _. view_of seat.new.seat ≡ view_of seat.old.seat) }

    // It is the same seat.
    ensures seats { (view_of seat.new.seat).seats ≡ (view_of seat.old.seat).seats }
    ensures seats_left { (view_of seat.new.seat).seats_left ≡ (view_of seat.old.seat).seats_left }
    ensures table { seat.new.seat.table_id ≡ seat.old.seat.table_id }
{
    let mut answers = Vec::with_capacity(alloc, seat.piece_count() as usize)?;
    while let Some(piece) = seat.draw() {
        turnstile.before(piece);
        answers.push_reserved(context.walk_piece(piece, seat));
        turnstile.after(piece);
    }
    Ok(answers)
}

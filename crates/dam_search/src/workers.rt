//! The workers of a search, each at its seat.

ghost use Rattle.std.specs.Prelude.{◌≡◌, ◌≤◌, ◌-◌, ◌^◌, true, [], length};
ghost use Rattle.std.specs.Prelude.{vec_len, All, IfOk};
ghost use Rattle.atomic_table.specs.Seated.{TableId};
ghost use Rattle.dam_plan.specs.Limits.{most_workers};
ghost use Rattle.dam_search.specs.Words.{view_of};
ghost use Rattle.dam_search.specs.inside.Seats.{IsNewSeat, IsWorkedSeat, AreJoined, AreAllAnswers};

use crate::answer::PieceAnswer;
use crate::collect::piece_count;
use crate::drawn_pieces::walk_drawn_pieces;
use crate::incumbent::Incumbent;
use crate::price_oracle::PriceOracle;
use crate::search_context::SearchContext;
use crate::words::{ClosedWords, close_words, new_words};
use crate::worker_seat::WorkerSeat;
use dam_plan::Turnstile;
use std::alloc::{AllocError, Global};
use std::thread;
use std::thread::Threads;

/// A worker's seat after its work, and its answers.
#[derive(Drop)]
pub(crate) struct WorkedSeat<'a> {
    seat: WorkerSeat<'a>,
    answers: Result<Vec<PieceAnswer>, AllocError>,
}

/// A seat for each worker, split off the first one.
fn split_seats<'a>(
    first: &mut WorkerSeat<'a>,
    alloc: Global,
    workers: u8,
) -> Result<Vec<WorkerSeat<'a>>, AllocError>
    requires { workers ≤ (view_of first.old.seat).seats_left }
    ensures table { first.new.seat.table_id ≡ first.old.seat.table_id }
    ensures first { IfOk result (λ _. view_of first.new.seat ≡ record (view_of first.old.seat) {
      seats_left = (view_of first.old.seat).seats_left - workers;
    }) }
    ensures many { IfOk result (λ seats. vec_len seats ≡ workers) }
    ensures seats { IfOk result (λ seats. All (λ s.
        IsNewSeat first.old.seat.table_id (view_of first.old.seat).pieces s) seats.items) }
{
    let mut seats = Vec::with_capacity(alloc, usize::from(workers))?;
    for _ in 0..workers {
        seats.push_reserved(first.split());
    }
    Ok(seats)
}

/// A worker's work at its seat.
fn work_at_seat<'a, P: PriceOracle, T: Turnstile>(
    context: &SearchContext<P>,
    turnstile: &T,
    seat: WorkerSeat<'a>,
) -> WorkedSeat<'a>
    requires new { IsNewSeat seat.seat.table_id (2 ^ context.now.depth) seat }
    ensures { IsWorkedSeat context.now.problem.now context.now.depth context.now.node_limit
        seat.entry.seat.table_id result }
{
    let mut seat = seat;
    let answers = walk_drawn_pieces(context.alloc, context, &mut seat, turnstile);
    WorkedSeat { seat, answers }
}

/// Runs the workers, each on a thread of its own if threads can be made.
fn work_on_threads<'a, R: Threads + Sync, P: PriceOracle + Sync, T: Turnstile + Sync>(
    rt: &R,
    context: &SearchContext<P>,
    turnstile: &T,
    seats: Vec<WorkerSeat<'a>>,
) -> Result<Vec<WorkedSeat<'a>>, AllocError>
    requires new { All (λ s. IsNewSeat s.seat.table_id (2 ^ context.now.depth) s) seats.items }
    ensures many { IfOk result (λ worked. vec_len worked ≡ vec_len seats.entry) }
    ensures worked { (table : TableId)
        → All (λ s. IsNewSeat table (2 ^ context.now.depth) s) seats.entry.items
        → IfOk result (λ worked.
        All (λ s. IsWorkedSeat context.now.problem.now context.now.depth
        context.now.node_limit table s) worked.items) }
{
    thread::map_vec(
        rt,
        seats,
        &|seat: WorkerSeat| -> WorkedSeat
            requires { IsNewSeat seat.seat.table_id (2 ^ context.now.depth) seat }
            ensures { IsWorkedSeat context.entry.now.problem.now context.entry.now.depth
                context.entry.now.node_limit seat.entry.seat.table_id result }
        { work_at_seat(context, turnstile, seat) },
    )
}

/// Joins the workers' seats into the first one, and their answers into one list, which was made with
/// memory for them before the work.
fn join_seats<'a, P: PriceOracle>(
    context: &SearchContext<P>,
    first: &mut WorkerSeat<'a>,
    mut worked: Vec<WorkedSeat<'a>>,
    mut answers: Vec<PieceAnswer>,
) -> Result<Vec<PieceAnswer>, AllocError>
    requires empty { answers.items ≡ [] }
    requires undrawn { (view_of first.old.seat).drawn ≡ [] }
    requires worked { All (λ s. IsWorkedSeat context.now.problem.now context.now.depth
        context.now.node_limit first.old.seat.table_id s) worked.items }
    ensures table { first.new.seat.table_id ≡ first.old.seat.table_id }
    ensures joined { IfOk result (λ answers.
        AreJoined context.now.problem.now context.now.depth context.now.node_limit
        (view_of first.old.seat) (vec_len worked.entry) (view_of first.new.seat) answers.items) }
{
    while let Some(worked_seat) = worked.pop() {
        let WorkedSeat {
            seat,
            answers: found,
        } = worked_seat;
        first.join(seat);
        answers.extend_from_slice(&found?)?;
    }
    Ok(answers)
}

/// Has the workers share out the pieces among them, at seats that are split off the first one and
/// joined into it again.
fn walk_with_workers<'a, R: Threads + Sync, P: PriceOracle + Sync, T: Turnstile + Sync>(
    rt: &R,
    context: &SearchContext<P>,
    workers: u8,
    turnstile: &T,
    first: &mut WorkerSeat<'a>,
) -> Result<Vec<PieceAnswer>, AllocError>
    requires pieces { (view_of first.old.seat).pieces ≡ 2 ^ context.now.depth }
    requires undrawn { (view_of first.old.seat).drawn ≡ [] }
    requires left { workers ≤ (view_of first.old.seat).seats_left }
    ensures table { first.new.seat.table_id ≡ first.old.seat.table_id }
    ensures joined { IfOk result (λ answers.
        AreJoined context.now.problem.now context.now.depth context.now.node_limit
        (record (view_of first.old.seat) {
          seats_left = (view_of first.old.seat).seats_left - workers;
        })
        workers (view_of first.new.seat) answers.items) }
{
    let answers = Vec::with_capacity(context.alloc, first.piece_count() as usize)?;
    let seats = split_seats(first, context.alloc, workers)?;
    let worked = work_on_threads(rt, context, turnstile, seats)?;
    join_seats(context, first, worked, answers)
}

/// The answers of all workers, and the contents of the words at the close.
#[derive(Drop)]
pub(crate) struct WalkedPieces {
    pub(crate) answers: Vec<PieceAnswer>,
    /// Only tests read them.
    pub(crate) closed_words: ClosedWords,
}

/// Walks every piece, each of them once, beginning with the first welfare as offered.
pub(crate) fn walk_all_pieces<R: Threads + Sync, P: PriceOracle + Sync, T: Turnstile + Sync>(
    rt: &R,
    context: &SearchContext<P>,
    workers: u8,
    turnstile: &T,
) -> Result<WalkedPieces, AllocError>
    requires some_worker { 1 ≤ workers }
    requires few_workers { workers ≤ most_workers }
    ensures { IfOk result (λ walked. AreAllAnswers context.now.problem.now context.now.depth
        context.now.node_limit context.now.first_welfare walked.answers.items) }
{
    let count = piece_count(context.depth);
    let (words, seat) = new_words(context.alloc, count)?;
    let mut first = WorkerSeat::new(&words, seat, count);
    first.offer(context.first_welfare);
    let answers = walk_with_workers(rt, context, workers, turnstile, &mut first)?;
    let seat = first.into_seat();
    let closed_words = close_words(words, seat);
    Ok(WalkedPieces {
        answers,
        closed_words,
    })
}

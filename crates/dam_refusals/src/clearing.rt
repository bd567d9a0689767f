//! A search, made again if memory was refused to it.

use crate::answer::{Answer, Stop, TRIES, Told};
use crate::jobs::Jobs;
use crate::texts::keeper_of;
use dam_blocks::{Problem, Solution};
use dam_engines::RunFault;
use dam_line::{Job, LineFault, read_job};
use dam_plan::Plan;
use dam_results::read_journal;
use dam_search::{SearchFault, search};
use std::alloc::Global;
use std::thread::Threads;

fn answer_of(found: Result<Solution, SearchFault>) -> Answer {
    match found {
        Ok(best) => Answer::Welfare(best.welfare),
        Err(fault) => Answer::Fault(RunFault::from(fault)),
    }
}

/// Searches until memory isn't refused. When a search has ended, its workers have left their pieces, and don't begin
/// others.
fn search_again<R: Threads + Sync>(
    rt: &R,
    alloc: Global,
    problem: &Problem,
    plan: Plan,
) -> Result<Told, Stop> {
    let pieces = Jobs::new();
    let mut ended = 0;
    for refused in 0..TRIES {
        if pieces.count_if_all_ended() != Some(ended) {
            return Err(Stop::Wrong);
        }
        let found = search(rt, alloc, problem, plan, &pieces);
        ended = pieces.count_if_all_ended().ok_or(Stop::Wrong)?;
        if found != Err(SearchFault::Memory) {
            let answer = answer_of(found);
            return Ok(Told { answer, refused });
        }
    }
    Err(Stop::Wrong)
}

/// Searches the book that the text's commands close, under the plan that the words ask for.
pub fn search_by_line<R: Threads + Sync>(
    rt: &R,
    alloc: Global,
    text: &[u8],
    words: &[String],
) -> Result<Told, Stop> {
    match read_job(alloc, words) {
        Ok(job) => search_by_job(rt, alloc, text, job),
        Err(LineFault::Memory) => Err(Stop::Memory),
        Err(LineFault::Refused { .. }) => Err(Stop::Wrong),
    }
}

/// Does the same for the job that words ask for.
fn search_by_job<R: Threads + Sync>(
    rt: &R,
    alloc: Global,
    text: &[u8],
    job: Job,
) -> Result<Told, Stop> {
    match job {
        Job::Clear(plan) => search_text(rt, alloc, text, plan),
        Job::Replay | Job::Day(_) => Err(Stop::Wrong),
    }
}

fn search_text<R: Threads + Sync>(
    rt: &R,
    alloc: Global,
    text: &[u8],
    plan: Plan,
) -> Result<Told, Stop> {
    let keeper = keeper_of(alloc, &read_journal(alloc, text)?)?;
    let problem = Problem::of_book(alloc, keeper.book())?;
    search_again(rt, alloc, &problem, plan)
}

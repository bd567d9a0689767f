//! Calls that are made again if memory was refused to them: `tests/hostile` refuses each of their calls for memory in
//! turn.
//!
//! The first word names a sequence of calls, as `run_sequence` has them; without a word it is a day at a gate. Standard
//! input is its journal, if it needs one. The program prints the answer of the last call, and how many calls were refused.
//! It prints `memory` if memory was refused before the first call of the sequence, and `wrong` if a call gave a wrong
//! answer or a refused call changed something.
//!
//! The books of gates hash names with a seed of the system's random bytes.
#![tactic(auto)]

mod answer;
mod clearing;
mod day;
mod jobs;
mod line;
mod passes;
mod refused_calls;
mod texts;

use answer::{Stop, Told};
use clearing::search_by_line;
use dam_book::{Command, Seed};
use dam_results::{JournalRead, read_journal};
use day::{hold_day, run_threads_again};
use line::read_job_again;
use refused_calls::{fill_journal, give_refused_commands, settle_others};
use std::alloc::Global;
use std::io::Read;
use std::sync::Wait;
use std::thread::Threads;
use std::{env, io};
use texts::{read_again, write_journal};

fn main(rt: HostRuntime) -> io::Result<()> {
    let alloc = rt.alloc();
    let mut words = env::args(&rt)?;
    // the first word is the program's name
    let _program = words.next();
    let words = words.collect::<Vec<String>>(alloc)?;
    let mut text = Vec::new(alloc);
    rt.stdin().read_to_end(&mut text)?;
    let told = match words.as_slice() {
        [] => run_sequence(&rt, alloc, Seed::drawn(&rt), "day", &[], &text),
        [name, rest @ ..] => run_sequence(&rt, alloc, Seed::drawn(&rt), name.as_str(), rest, &text),
    };
    match told {
        Ok(told) => println!(rt; "{told}"),
        Err(stop) => println!(rt; "{stop}"),
    }
}

/// Makes the calls of the sequence of this name, from the further words and the text.
fn run_sequence<R: Threads + Wait + Sync>(
    rt: &R,
    alloc: Global,
    seed: Seed,
    name: &str,
    words: &[String],
    text: &[u8],
) -> Result<Told, Stop> {
    match name {
        "day" => hold_day_of_text(rt, alloc, seed, text, false),
        "threads" => hold_day_of_text(rt, alloc, seed, text, true),
        "filled" => fill_journal(rt, alloc, seed, false),
        "full" => fill_journal(rt, alloc, seed, true),
        "others" => give_refused_commands(rt, alloc, seed),
        "settle" => settle_others(rt, alloc, seed),
        "read" => read_again(alloc, text),
        "write" => write_journal(alloc, text),
        "search" => search_by_line(rt, alloc, text, words),
        "line" => read_job_again(alloc, words),
        _ => Err(Stop::Wrong),
    }
}

/// Holds a day of the text's commands, by one thread or by one for each participant.
fn hold_day_of_text<R: Threads + Wait + Sync>(
    rt: &R,
    alloc: Global,
    seed: Seed,
    text: &[u8],
    on_threads: bool,
) -> Result<Told, Stop> {
    let JournalRead { periods, commands } = read_journal(alloc, text)?;
    let commands: Vec<Command> = commands
        .iter()
        .map(|packed| packed.command())
        .collect(alloc)?;
    if on_threads {
        run_threads_again(rt, alloc, seed, periods, &commands)
    } else {
        hold_day(rt, alloc, seed, periods, &commands)
    }
}

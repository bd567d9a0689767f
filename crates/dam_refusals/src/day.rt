//! A day of given commands, from the first pass to the settlement.
ghost use Rattle.std.specs.Prelude.{◌≡◌, ◌<◌, ◌+◌, length, IfOk};
ghost use Rattle.dam_gate.specs.Settled.{IsSettled};
ghost use Rattle.dam_refusals.specs.Printed.{IsDay};

use crate::answer::{Answer, Stop, TRIES, Told};
use crate::jobs::Jobs;
use crate::passes::Passes;
use dam_book::{Command, DayLength, PackedEntry, Seed};
use dam_gate::{
    Account, DayFault, Gate, GateName, Journal, Keeper, MOST_PASSES, Mismatch, Opening, Settled,
    run_commands, settle,
};
use std::alloc::Global;
use std::marker::Brand;
use std::sync::Wait;
use std::thread::Threads;

/// Settles the journal, and says how many calls were refused memory.
pub fn settle_again(
    alloc: Global,
    journal: Journal,
    accounts: &[Account],
) -> Result<(Settled, u32), Stop>
    ensures journal { IfOk result (λ found. found.0 ≡ journal) }
    ensures settled { IfOk result (λ found. IsSettled found.0 accounts.now) }
    ensures refused { IfOk result (λ found. found.1 < 10) }
{
    let mut journal = journal;
    for refused in 0..TRIES {
        match settle(alloc, journal, accounts) {
            Ok(settled) => return Ok((settled, refused)),
            Err(unsettled) => {
                if unsettled.why != Mismatch::Memory {
                    return Err(Stop::Wrong);
                }
                journal = unsettled.journal;
            }
        }
    }
    Err(Stop::Wrong)
}

/// Whether these are the same entries.
fn are_equal(entries: &[PackedEntry], others: &[PackedEntry]) -> bool {
    entries.len() == others.len()
        && entries
            .iter()
            .zip(others.iter())
            .all(|(entry, other)| entry.equals(other))
}

/// Has the gate take the commands of a journal's entries, each by a pass of its giver.
fn enter_entries<J: GateName, H: Wait + Drop>(
    rt: &impl Wait,
    gate: &Gate<J, H>,
    passes: &mut Passes<J>,
    entries: &[PackedEntry],
) -> Result<(), Stop> {
    for entry in entries {
        let command = entry.command().command();
        passes.enter(rt, gate, &command, entry.number().wrapping_sub(1))?;
    }
    Ok(())
}

/// Holds the keeper's day at a gate of this opening, whose book hashes names by the seed. Its journal has to equal the
/// keeper's.
fn hold_at_gate<J: GateName, R: Wait>(
    rt: &R,
    alloc: Global,
    opening: Opening,
    seed: Seed,
    keeper: &Keeper,
) -> Result<Told, Stop>
    requires { opening ≡ J.opening }
    ensures { IfOk result (IsDay (length keeper.now.journal.entries)) }
{
    let accounts = Vec::with_capacity(alloc, MOST_PASSES as usize)?;
    let mut passes = Passes::<J>::new(alloc)?;
    let gate = Gate::<J, &R>::begin_seeded(rt, alloc, opening, seed)?;
    enter_entries(rt, &gate, &mut passes, keeper.entries())?;
    let journal = gate.finish();
    let refused = passes.refused;
    let accounts = passes.into_accounts(accounts)?;
    let (settled, again) = settle_again(alloc, journal, &accounts)?;
    if !are_equal(settled.journal().entries(), keeper.entries()) {
        return Err(Stop::Wrong);
    }
    Ok(Told {
        answer: Answer::Entries(keeper.entries().len()),
        refused: refused.wrapping_add(again),
    })
}

/// Enters the commands and then a close at a gate, by one thread; compared with a keeper, which has them first. So the
/// day has an entry for each command and one for the close.
pub fn hold_day<R: Wait>(
    rt: &R,
    alloc: Global,
    seed: Seed,
    periods: DayLength,
    commands: &[Command],
) -> Result<Told, Stop>
    ensures { IfOk result (IsDay (length commands.now + 1)) }
{
    let mut keeper = Keeper::for_day(alloc, periods, seed)?;
    for command in commands {
        keeper.apply(command.copy())?;
    }
    keeper.apply(Command::Close)?;
    hold_at_gate::<Brand, R>(rt, alloc, Opening::new(periods.get()), seed, &keeper)
}

/// Has participants enter the commands on threads of their own, at a gate whose book hashes names by the seed. The gate
/// has to call its turnstile after the work of each job that it called it before, also if memory is refused to it.
pub fn run_threads_again<R: Threads + Wait + Sync>(
    rt: &R,
    alloc: Global,
    seed: Seed,
    periods: DayLength,
    commands: &[Command],
) -> Result<Told, Stop> {
    for refused in 0..TRIES {
        let jobs = Jobs::new();
        let done = run_commands(rt, alloc, periods, seed, commands, &jobs);
        if jobs.count_if_all_ended().is_none() {
            return Err(Stop::Wrong);
        }
        match done {
            Ok(day) => {
                let entries = day.settled.journal().entries().len();
                return Ok(Told {
                    answer: Answer::Entries(entries),
                    refused,
                });
            }
            Err(DayFault::Memory) => {}
            Err(_) => return Err(Stop::Wrong),
        }
    }
    Err(Stop::Wrong)
}

//! A day at a gate.
ghost use Rattle.std.specs.Prelude.{IfOk};
ghost use Rattle.dam_gate.specs.Day.{IsDayRun};
ghost use Rattle.dam_gate.specs.Headline.{IsWholeAccount};

use anyhow::{Context, Result};
use dam_book::{Command, DayLength, Seed};
use dam_gate::{FreeTurn, SettledDay, run_commands};
use std::alloc::Global;
use std::sync::Wait;
use std::thread::Threads;

/// Has each participant enter its commands at a gate, side by side with the others; then the operator closes, and the journal is settled.
pub fn hold_day<R: Threads + Wait + Sync>(
    rt: &R,
    alloc: Global,
    commands: &[Command],
) -> Result<SettledDay>
    ensures run { IfOk result (λ day. IsDayRun 24 commands.now day.settled.entries) }
    ensures account { IfOk result (λ day. IsWholeAccount day.settled day.accounts.items) }
{
    let periods = DayLength::new(24).context("the length of a day")?;
    let day = run_commands(rt, alloc, periods, Seed::fixed(), commands, &FreeTurn)?;
    Ok(day)
}

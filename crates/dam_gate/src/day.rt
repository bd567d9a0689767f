//! A day of given commands: the participants enter theirs at one gate, and then the operator closes.

ghost use Rattle.std.specs.Prelude.{◌≡◌, ◌≤◌, ◌<◌, ◌+◌, ◌∷◌, ◌++◌, [], ℕ, length, map, slice_index_or, IfOk, IfErr};
ghost use mathlib.Core.List.{IsPrefix};
ghost use Rattle.dam_gate.specs.Limits.{most_participants};
ghost use Rattle.dam_gate.specs.Pass.{Knowledge, after_learning};
ghost use Rattle.dam_gate.specs.Settled.{IsSettled, receipts_of};
ghost use Rattle.dam_gate.specs.Headline.{IsWholeAccount};
ghost use Rattle.dam_gate.specs.Day.{AreTaken, IsDayFault, IsSettledDay, givers_of};
ghost use Rattle.dam_gate.specs.inside.Entering.{AreGivers, IsUnsettled};

use crate::account::Account;
use crate::entering::{NotEntered, enter_before_close};
use crate::gate::Gate;
use crate::givers::{check_command_count, find_givers};
use crate::journal::Journal;
use crate::opening::{Answered, DayStart, GateName, Opening};
use crate::pass::Pass;
use crate::settlement::{Mismatch, Settled, settle};
use dam_book::{Command, DayLength, PackedCommand, Participant, Seed};
use dam_plan::Turnstile;
use std::alloc::{AllocError, Global};
use std::marker::Brand;
use std::sync::Wait;
use std::sync::ledger::Share as LedgerPart;
use std::thread::Threads;
use thiserror::Error;

/// Why a day of given commands isn't run. The number of commands is looked at first. Then each command is, in their order,
/// for a close and then for its participant. A place is counted from 0.
#[derive(Clone, Copy, PartialEq, Eq, Debug, Error)]
pub enum DayFault {
    /// There are more commands than a journal has room for before its close.
    #[error("too many commands")]
    TooManyCommands,
    /// The command at this place is a close, which only the operator gives.
    #[error("command {0} is a close")]
    CloseGiven(usize),
    /// The command at this place brings one participant too many.
    #[error("command {0} brings one participant too many")]
    TooManyParticipants(usize),
    /// The journal and the passes came out unsettled. By contract, this never happens.
    #[error("not settled: {0}")]
    NotSettled(Mismatch),
    /// Memory ran out.
    #[error("out of memory")]
    Memory,
}

/// A day that came out settled.
#[derive(Debug, Drop)]
pub struct SettledDay {
    pub settled: Settled,
    /// The accounts of the passes through which its commands were entered: the participants', by first occurrence among
    /// the commands given, and then the operator's.
    pub accounts: Vec<Account>,
}

impl From<AllocError> for DayFault {
    ghost use Rattle.std.specs.Prelude.{◌≡◌};
    ghost use Rattle.dam_gate.specs.declared.day.DayFault.TheVariants.{Memory};

    ghost from_gives = { λ _ fault. fault ≡ Memory };

    fn from(_error: AllocError) -> DayFault {
        DayFault::Memory
    }
}

impl From<NotEntered> for DayFault {
    ghost use Rattle.std.specs.Prelude.{◌≡◌};
    ghost use Rattle.dam_gate.specs.declared.day.DayFault.TheVariants.{Memory};

    ghost from_gives = { λ _ fault. fault ≡ Memory };

    fn from(_cause: NotEntered) -> DayFault {
        DayFault::Memory
    }
}

/// The pass learns all that these have seen.
fn learn_from_all<J: GateName>(pass: &mut Pass<J>, others: &[Pass<J>])
    ensures pass { pass.new ≡ after_learning pass.old pass.new.learnt }
    ensures learnt { (i : ℕ) (d : Knowledge) → i < length others.now
        → IsPrefix (slice_index_or others.now i d).history pass.new.learnt }
{
    for other in others {
        pass.learn_from(other);
    }
}

/// The accounts of the passes and then of the operator's, with their parts of the gate's count of entries.
fn into_accounts_and_parts<J: GateName>(
    alloc: Global,
    passes: Vec<Pass<J>>,
    operator: Pass<J>,
) -> Result<(Vec<Account>, LedgerPart<Answered<J>>), AllocError>
    ensures accounts { IfOk result (λ r. r.0.items
        ≡ map (λ pass. pass.account) passes.items ++ operator.account ∷ []) }
    ensures parts { IfOk result (λ r. r.1.parts ≡ length passes.items + 1) }
    ensures count { IfOk result (λ r. r.1.amount ≡ length (receipts_of r.0.items)) }
{
    let mut accounts = Vec::with_capacity(alloc, passes.len() + 1)?;
    let (last, mut parts) = operator.into_account_and_part();
    for pass in passes {
        let (account, part) = pass.into_account_and_part();
        accounts.push(account)?;
        parts.merge(part);
    }
    accounts.push(last)?;
    Ok((accounts, parts))
}

/// The day of participants who give all the commands, at a gate of its own.
///
/// The operator first learns all that the participants have seen, and closes when they have left the gate. So its close
/// is the journal's last entry, and the journal has all theirs. Their parts of the count show that it has no other.
fn run_at_own_gate<J: GateName + Send + Sync, R: Threads + Wait + Sync, T: Turnstile + Sync>(
    rt: &R,
    alloc: Global,
    start: DayStart,
    turnstile: &T,
    participants: &[Participant],
    commands: &[PackedCommand],
) -> Result<SettledDay, DayFault>
    requires name { start.opening ≡ J.opening }
    requires passes { start.opening.passes ≡ length participants.now + 1 }
    requires givers { AreGivers participants.now commands.now }
    requires order { participants.now ≡ givers_of commands.now }
    requires few { length participants.now ≤ most_participants }
    requires taken { AreTaken commands.now }
    ensures day { IfOk result (IsSettledDay start.periods commands.now) }
    ensures err { IfErr result (λ fault. fault ≡ DayFault.Memory) }
{
    let gate = Gate::<J, &R>::for_day(rt, alloc, start)?;
    let passes = enter_before_close(rt, alloc, &gate, turnstile, participants, commands)?;
    let mut operator = match gate.issue_operator_pass(rt) {
        Ok(operator) => operator,
        Err(fault) => return Err(DayFault::from(NotEntered::Pass(fault))),
    };
    learn_from_all(&mut operator, &passes);
    let closed = match gate.close_into_locked(&mut operator) {
        Ok(closed) => closed,
        Err(fault) => return Err(DayFault::from(NotEntered::Call(fault))),
    };
    let (accounts, mut parts) = into_accounts_and_parts(alloc, passes, operator)?;
    let journal = closed.into_audited_journal(&mut parts);
    let settled = settle_journal(alloc, journal, &accounts)?;
    Ok(SettledDay { settled, accounts })
}

/// The journal settled with the accounts.
fn settle_journal(
    alloc: Global,
    journal: Journal,
    accounts: &[Account],
) -> Result<Settled, DayFault>
    ensures journal { IfOk result (λ settled. settled ≡ journal) }
    ensures account { IfOk result (λ settled. IsWholeAccount settled accounts.now) }
    ensures why { IfErr result (IsUnsettled journal accounts.now) }
    ensures exact { IsSettled journal accounts.now
        → IfErr result (λ fault. fault ≡ DayFault.Memory) }
{
    match settle(alloc, journal, accounts) {
        Ok(settled) => Ok(settled),
        Err(unsettled) => match unsettled.why {
            Mismatch::Memory => Err(DayFault::Memory),
            why => Err(DayFault::NotSettled(why)),
        },
    }
}

/// The commands, packed.
fn pack_commands(alloc: Global, commands: &[Command]) -> Result<Vec<PackedCommand>, AllocError>
    ensures { IfOk result (λ packed. packed.items ≡ commands.now) }
{
    let mut packed = Vec::with_capacity(alloc, commands.len())?;
    for command in commands {
        packed.push(PackedCommand::of(alloc, command)?)?;
    }
    Ok(packed)
}

/// Runs a day of given commands: each participant enters its own, in their order, through a pass of its own and on a
/// thread of its own if one can be started; then the operator closes, and the journal is settled.
///
/// The gate's book hashes names by the seed. The turnstile is called before and after each participant's commands, on
/// the thread that enters them. Participants are numbered from 0, by first occurrence among the commands. `Memory` may
/// come in place of any answer but `TooManyCommands`. A place is counted from 0.
pub fn run_commands<R: Threads + Wait + Sync, T: Turnstile + Sync>(
    rt: &R,
    alloc: Global,
    periods: DayLength,
    seed: Seed,
    commands: &[Command],
    turnstile: &T,
) -> Result<SettledDay, DayFault>
    ensures day { IfOk result (IsSettledDay periods commands.now) }
    ensures fault { IfErr result (IsDayFault commands.now) }
{
    check_command_count(commands.len())?;
    let packed = pack_commands(alloc, commands)?;
    run_packed(rt, alloc, periods, seed, &packed, turnstile)
}

/// Runs a day as `run_commands` does, of packed commands.
pub fn run_packed<R: Threads + Wait + Sync, T: Turnstile + Sync>(
    rt: &R,
    alloc: Global,
    periods: DayLength,
    seed: Seed,
    commands: &[PackedCommand],
    turnstile: &T,
) -> Result<SettledDay, DayFault>
    ensures day { IfOk result (IsSettledDay periods commands.now) }
    ensures fault { IfErr result (IsDayFault commands.now) }
{
    let participants = find_givers(alloc, commands)?;
    let opening = Opening::with_passes(periods.get(), participants.len() as u8 + 1);
    let start = DayStart {
        opening,
        periods,
        seed,
    };
    run_at_own_gate::<Brand, R, T>(rt, alloc, start, turnstile, &participants, commands)
}

//! The participants enter their commands at one gate, each on a thread of its own if one can be started.

ghost use Rattle.std.specs.Prelude.{◌≡◌, ◌≤◌, ◌<◌, ℕ, true, Some, length, map, slice_index_or, IfOk, All};
ghost use Rattle.dam_gate.specs.Limits.{most_participants};
ghost use Rattle.dam_gate.specs.Pass.{Knowledge, IsKnowledge, holders, knowing_nothing};
ghost use Rattle.dam_gate.specs.inside.Entering.{AreApart, AreServed, Enters, HasAll, commands_at, places_of};

use crate::command_places::{CommandPlaces, find_all_places, places_of};
use crate::gate::{Gate, GateFault, PassFault};
use crate::limits::MOST_PARTICIPANTS;
use crate::opening::GateName;
use crate::pass::Pass;
use dam_book::{PackedCommand, Participant};
use dam_plan::Turnstile;
use std::alloc::{AllocError, Global};
use std::sync::Wait;
use std::thread;
use std::thread::Threads;
use thiserror::Error;

/// Why a day's own gate doesn't take all commands and the close. To the day each is `DayFault::Memory`. It leaves no other
/// cause but `GateFault::Stopped`, which no test reaches: each command is its pass's to give and has room in the journal,
/// and there are as many passes and places as holders.
#[derive(Clone, Copy, Debug, Error)]
pub(crate) enum NotEntered {
    #[error(transparent)]
    Pass(#[from] PassFault),
    #[error(transparent)]
    Call(#[from] GateFault),
    /// A call of a participant failed. Its fault stays with the thread.
    #[error("a participant's call failed")]
    CallOfParticipant,
    #[error(transparent)]
    Memory(#[from(alloc)] AllocError),
}

/// Enters the commands at these places in their order, up to the first whose call fails.
fn enter_commands<J: GateName, H: Wait + Drop>(
    rt: &impl Wait,
    gate: &Gate<J, H>,
    pass: &mut Pass<J>,
    commands: &[PackedCommand],
    places: &[usize],
)
    ensures { Enters (commands_at commands.now places.now) pass.old.account pass.new.account }
{
    for place in places {
        let Some(given) = commands.get(*place) else {
            continue;
        };
        let Ok(_answer) = gate.call_packed(rt, pass, given) else {
            return;
        };
    }
}

/// Enters the commands of one participant, between the calls of the turnstile.
fn enter_through_turnstile<J: GateName, H: Wait + Drop, T: Turnstile>(
    rt: &impl Wait,
    gate: &Gate<J, H>,
    turnstile: &T,
    participant: u32,
    pass: &mut Pass<J>,
    commands: &[PackedCommand],
    places: &[usize],
)
    ensures { Enters (commands_at commands.now places.now) pass.old.account pass.new.account }
{
    turnstile.before(participant);
    enter_commands(rt, gate, pass, commands, places);
    turnstile.after(participant);
}

/// Has each participant enter its commands, on a thread of its own if one can be started.
fn enter_all<J: GateName + Send + Sync, R: Threads + Wait + Sync, T: Turnstile + Sync>(
    rt: &R,
    gate: &Gate<J, &R>,
    turnstile: &T,
    passes: &mut [Pass<J>],
    commands: &[PackedCommand],
    all_places: &[CommandPlaces],
)
    requires { length passes.old ≤ most_participants }
    ensures { (i : ℕ) (d : Knowledge) → i < length passes.old
        → Enters (commands_at commands.now (places_of all_places.now i))
        (slice_index_or passes.old i d).account (slice_index_or passes.new i d).account }
{
    thread::for_each_mut(
        rt,
        passes,
        MOST_PARTICIPANTS,
        &|place, pass| {
            let places = places_of(all_places, place);
            enter_through_turnstile(rt, gate, turnstile, place as u32, pass, commands, places)
        },
    );
}

/// Whether no call failed: each pass has as many receipts as it has places of commands.
fn have_all_entered<J: GateName>(passes: &[Pass<J>], all_places: &[CommandPlaces]) -> bool
    ensures all { result ≡ true → (i : ℕ) (d : Knowledge) → i < length passes.now
        → HasAll (places_of all_places.now i) (slice_index_or passes.now i d).account }
    ensures valid { result ≡ true → All IsKnowledge passes.now }
{
    for (place, pass) in passes.iter().enumerate() {
        if pass.receipts().len() != places_of(all_places, place).len() {
            return false;
        }
    }
    true
}

/// A pass for the participant, with room for this number of receipts.
fn issue_pass_with_room<J: GateName, H: Wait + Drop>(
    rt: &impl Wait,
    gate: &Gate<J, H>,
    who: &Participant,
    receipts: usize,
) -> Result<Pass<J>, NotEntered>
    ensures { IfOk result (λ pass. pass ≡ knowing_nothing (Some who.now)) }
{
    let mut pass = gate.issue_pass(rt, who.copy())?;
    pass.reserve_receipts(receipts)?;
    Ok(pass)
}

/// A pass for each participant, with room for the receipts of its commands.
fn issue_passes<J: GateName, H: Wait + Drop>(
    rt: &impl Wait,
    alloc: Global,
    gate: &Gate<J, H>,
    participants: &[Participant],
    all_places: &[CommandPlaces],
) -> Result<Vec<Pass<J>>, NotEntered>
    ensures { IfOk result (λ passes.
        passes.items ≡ map (λ who. knowing_nothing (Some who)) participants.now) }
{
    let mut passes = Vec::with_capacity(alloc, participants.len() + 1)?;
    for who in participants {
        let receipts = places_of(all_places, passes.len()).len();
        passes.push(issue_pass_with_room(rt, gate, who, receipts)?)?;
    }
    Ok(passes)
}

/// The passes through which all commands were entered, one for each participant.
pub(crate) fn enter_before_close<
    J: GateName + Send + Sync,
    R: Threads + Wait + Sync,
    T: Turnstile + Sync,
>(
    rt: &R,
    alloc: Global,
    gate: &Gate<J, &R>,
    turnstile: &T,
    participants: &[Participant],
    commands: &[PackedCommand],
) -> Result<Vec<Pass<J>>, NotEntered>
    requires few { length participants.now ≤ most_participants }
    requires apart { AreApart participants.now }
    ensures ok { IfOk result (λ passes. AreServed commands.now participants.now
        (map (λ pass. pass.account) passes.items)) }
    ensures holders { IfOk result (λ passes. holders (map (λ pass. pass.account) passes.items)
        ≡ map (λ who. Some who) participants.now) }
    ensures valid { IfOk result (λ passes. All IsKnowledge passes.items) }
{
    let all_places = find_all_places(alloc, participants, commands)?;
    let all_places = all_places.as_slice();
    let mut passes = issue_passes(rt, alloc, gate, participants, all_places)?;
    // So that a journal which grows isn't copied.
    gate.reserve_entries(rt, commands.len() + 1)?;
    enter_all(rt, gate, turnstile, &mut passes, commands, all_places);
    if !have_all_entered(&passes, all_places) {
        return Err(NotEntered::CallOfParticipant);
    }
    Ok(passes)
}

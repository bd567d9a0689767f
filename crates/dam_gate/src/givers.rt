//! The commands that a day takes, and the participants who give them.

ghost use Rattle.std.specs.Prelude.{◌≡◌, ◌≤◌, ◌<◌, length, IfOk, IfErr, OnOk};
ghost use Rattle.dam_book.specs.Limits.{most_entries};
ghost use Rattle.dam_gate.specs.Limits.{most_participants};
ghost use Rattle.dam_gate.specs.Day.{AreTaken, IsDayFault, givers_of, is_one_of};
ghost use Rattle.dam_gate.specs.inside.Entering.{AreGivers, IsFaultAt, TakesGiver};

use crate::day::DayFault;
use crate::limits::MOST_PARTICIPANTS;
use dam_book::{MOST_ENTRIES, PackedCommand, Participant};
use std::alloc::Global;

/// Fails unless a journal has room for this number of commands and for the close after them.
pub(crate) fn check_command_count(commands: usize) -> Result<(), DayFault>
    ensures room { OnOk result (commands < most_entries) }
    ensures fault { IfErr result (λ fault.
        (fault ≡ DayFault.TooManyCommands) × (most_entries ≤ commands)) }
{
    if commands >= MOST_ENTRIES {
        return Err(DayFault::TooManyCommands);
    }
    Ok(())
}

fn is_one_of(participants: &[Participant], who: &Participant) -> bool
    ensures { result ≡ is_one_of participants.now who.now }
{
    participants.iter().any(|other| *who == *other)
}

/// Adds the participant who gives the command at this place, unless it is among the participants.
fn add_giver(
    participants: &mut Vec<Participant>,
    command: &PackedCommand,
    place: usize,
) -> Result<(), DayFault>
    requires { length participants.old.items ≤ most_participants }
    ensures few { OnOk result (length participants.new.items ≤ most_participants) }
    ensures giver { OnOk result
        (TakesGiver command.now participants.old.items participants.new.items) }
    ensures refused { IfErr result (IsFaultAt place participants.old.items command.now) }
{
    let Some(who) = command.participant() else {
        return Err(DayFault::CloseGiven(place));
    };
    if is_one_of(participants, who) {
        return Ok(());
    }
    if participants.len() >= MOST_PARTICIPANTS {
        return Err(DayFault::TooManyParticipants(place));
    }
    if participants.push(who.copy()).is_err() {
        return Err(DayFault::Memory);
    }
    Ok(())
}

/// The participants who give the commands, by first occurrence, if the day takes the commands.
pub(crate) fn find_givers(
    alloc: Global,
    commands: &[PackedCommand],
) -> Result<Vec<Participant>, DayFault>
    ensures ok { IfOk result (λ participants. AreGivers participants.items commands.now) }
    ensures order { IfOk result (λ participants. participants.items ≡ givers_of commands.now) }
    ensures few { IfOk result (λ participants. length participants.items ≤ most_participants) }
    ensures taken { OnOk result (AreTaken commands.now) }
    ensures fault { IfErr result (IsDayFault commands.now) }
{
    check_command_count(commands.len())?;
    let mut participants = Vec::new(alloc);
    for (place, command) in commands.iter().enumerate() {
        add_giver(&mut participants, command, place)?;
    }
    Ok(participants)
}

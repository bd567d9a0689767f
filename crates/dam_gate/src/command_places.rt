//! The places of each participant's commands among the day's, found in one pass over them.

ghost use Rattle.std.specs.Prelude.{◌≡◌, ◌++◌, ◌∷◌, [], List, replicate, slice_get, false, Some, IfOk, OnOk, IfSome, IfNone};
ghost use Rattle.dam_book.specs.declared.command.Command.{Command};
ghost use Rattle.dam_gate.specs.Day.{is_one_of};
ghost use Rattle.dam_gate.specs.inside.Entering.{AreApart, AreAllPlaces, places_of};

use dam_book::{PackedCommand, Participant};
use std::alloc::{AllocError, Global};
use std::marker::Model;

/// The places of one participant's commands among the day's commands, in their order. A contract sees the places.
#[derive(Debug, Drop)]
pub(crate) struct CommandPlaces {
    places: Vec<usize>,
}

impl Model for CommandPlaces {
    ghost use Rattle.std.specs.Prelude.{List, ℕ};

    ghost Value = { List ℕ };

    ghost view = { λ s. s.places.items };
}

impl CommandPlaces {
    fn new(alloc: Global) -> CommandPlaces
        ensures { result ≡ [] }
    {
        CommandPlaces {
            places: Vec::new(alloc),
        }
    }

    fn places(&self) -> &[usize]
        ensures { result.now ≡ self.now }
    {
        &self.places
    }

    fn add(&mut self, place: usize) -> Result<(), AllocError>
        ensures { OnOk result (self.new ≡ self.old ++ place ∷ []) }
    {
        self.places.push(place)?;
        Ok(())
    }
}

/// The places of the commands of the participant at this place; none if there is no such participant.
pub(crate) fn places_of(all_places: &[CommandPlaces], at: usize) -> &[usize]
    ensures { result.now ≡ places_of all_places.now at }
{
    match all_places.get(at) {
        Some(places) => places.places(),
        None => &[],
    }
}

/// No places yet, for each of this number of participants.
fn empty_places(alloc: Global, count: usize) -> Result<Vec<CommandPlaces>, AllocError>
    ensures { IfOk result (λ all_places. all_places.items ≡ replicate count []) }
{
    let mut all_places = Vec::with_capacity(alloc, count)?;
    for _ in 0..count {
        all_places.push(CommandPlaces::new(alloc))?;
    }
    Ok(all_places)
}

/// The place of the participant among these.
fn index_of(participants: &[Participant], who: &Participant) -> Option<usize>
    ensures found { IfSome result (λ at. slice_get participants.now at ≡ Some who.now) }
    ensures absent { IfNone result (is_one_of participants.now who.now ≡ false) }
{
    for (at, other) in participants.iter().enumerate() {
        if *who == *other {
            return Some(at);
        }
    }
    None
}

/// Adds the place of the command to those of the participant who gives it.
fn add_place(
    all_places: &mut [CommandPlaces],
    participants: &[Participant],
    command: &PackedCommand,
    place: usize,
) -> Result<(), AllocError>
    requires { AreApart participants.now }
    ensures { (all front : List Command) → slice_get all place ≡ Some command.now
        → AreAllPlaces all front participants.now all_places.old → OnOk result
        (AreAllPlaces all (front ++ command.now ∷ []) participants.now all_places.new) }
{
    let Some(who) = command.participant() else {
        return Ok(());
    };
    let Some(at) = index_of(participants, who) else {
        return Ok(());
    };
    if at < all_places.len() {
        all_places[at].add(place)?;
    }
    Ok(())
}

/// The places of the commands of each participant, found in one pass over the commands.
pub(crate) fn find_all_places(
    alloc: Global,
    participants: &[Participant],
    commands: &[PackedCommand],
) -> Result<Vec<CommandPlaces>, AllocError>
    requires { AreApart participants.now }
    ensures { IfOk result (λ all_places.
        AreAllPlaces commands.now commands.now participants.now all_places.items) }
{
    let mut all_places = empty_places(alloc, participants.len())?;
    for (place, command) in commands.iter().enumerate() {
        add_place(&mut all_places, participants, command, place)?;
    }
    Ok(all_places)
}

//! Commands and entries in few bytes: only those that need the room for a block's volumes take memory for it.

ghost use Rattle.std.specs.Prelude.{◌≡◌, ◌≢◌, ◌∷◌, [], true, IfOk, IsOk, MatchBool};
ghost use Rattle.std.specs.Option.{option_copied};
ghost use Rattle.dam_book.specs.Command.{giver, is_small};
ghost use Rattle.dam_book.specs.inside.Packed.{command_of};

use crate::command::{Command, Entry, Reply};
use crate::laws::equality;
use crate::name::Name;
use crate::order::{HourOrder, Order};
use crate::participant::Participant;
use crate::period::Period;
use crate::price::Price;
use crate::quantity::Qty;
use crate::volumes::Volumes;
use std::alloc::{AllocError, Allocator, Global};
use std::marker::Model;
use std::sync::Arc;

/// A command without the room that a `Command` has for the volumes of a block: 40 bytes for a submit or an amend of an
/// hourly order, a cancel or a close. Any other command is in an allocation of its own, which its clones share.
///
/// A contract sees the command.
#[derive(Debug, Drop)]
pub struct PackedCommand<A: Allocator = Global> {
    packing: Packing<A>,
}

/// A command in no more memory than it needs.
#[derive(Debug, Drop)]
enum Packing<A: Allocator> {
    /// A submit of an hourly order.
    Hour {
        who: Participant,
        name: Name,
        order: HourOrder,
    },
    /// An amend with one pair of a period and a volume.
    Amend {
        who: Participant,
        name: Name,
        price: Price,
        period: Period,
        volume: Qty,
    },
    Cancel {
        who: Participant,
        name: Name,
    },
    Close,
    /// Any other command.
    Whole(Arc<Command, A>),
}

impl<A: Allocator> Model for PackedCommand<A> {
    ghost use Rattle.dam_book.specs.declared.command.Command.{Command};
    ghost use Rattle.dam_book.specs.inside.Packed.{command_of};

    ghost Value = { Command };

    ghost view = { λ p. command_of p.packing };
}

impl<A: Allocator> PackedCommand<A> {
    /// The command, packed. Only a block, or an amend of more than one period, takes memory.
    pub fn of(alloc: A, command: &Command) -> Result<PackedCommand<A>, AllocError>
        ensures command { IfOk result (λ packed. packed ≡ command.now) }
        ensures small { is_small command.now ≡ true → IsOk result }
    {
        let packing = match command {
            Command::Submit {
                who,
                name,
                order: Order::Hour(order),
            } => pack_hour(who, name, order),
            Command::Amend {
                who,
                name,
                price,
                volumes,
            } => match volumes.pairs() {
                [(period, volume)] => pack_amend(who, name, *price, *period, *volume),
                _ => pack_whole(alloc, command)?,
            },
            Command::Cancel { who, name } => pack_cancel(who, name),
            Command::Close => Packing::Close,
            Command::Submit { .. } => pack_whole(alloc, command)?,
        };
        Ok(PackedCommand { packing })
    }

    /// The command; it can't fail.
    pub fn command(&self) -> Command
        ensures { result ≡ self.now }
    {
        match &self.packing {
            Packing::Hour { who, name, order } => Command::Submit {
                who: who.copy(),
                name: name.copy(),
                order: Order::Hour(*order),
            },
            Packing::Amend {
                who,
                name,
                price,
                period,
                volume,
            } => Command::Amend {
                who: who.copy(),
                name: name.copy(),
                price: *price,
                volumes: Volumes::of_one(*period, *volume),
            },
            Packing::Cancel { who, name } => Command::Cancel {
                who: who.copy(),
                name: name.copy(),
            },
            Packing::Close => Command::Close,
            Packing::Whole(command) => command.copy(),
        }
    }

    /// The participant who gives it; `None` for a close, which is the operator's.
    pub fn participant(&self) -> Option<&Participant>
        ensures { option_copied result ≡ giver self.now }
    {
        match &self.packing {
            Packing::Hour { who, .. } | Packing::Amend { who, .. } | Packing::Cancel { who, .. } =>
                Some(who),
            Packing::Close => None,
            Packing::Whole(command) => command.participant(),
        }
    }

    /// Whether the other is the same command. Neither is unpacked if both are packed alike.
    pub fn equals<B: Allocator>(&self, other: &PackedCommand<B>) -> bool
        ensures { MatchBool result (self.now ≡ other.now) (self.now ≢ other.now) }
    {
        equality();
        match (&self.packing, &other.packing) {
            (
                Packing::Hour { who, name, order },
                Packing::Hour {
                    who: other_who,
                    name: other_name,
                    order: other_order,
                },
            ) => *who == *other_who && *name == *other_name && *order == *other_order,
            (
                Packing::Amend {
                    who,
                    name,
                    price,
                    period,
                    volume,
                },
                Packing::Amend {
                    who: other_who,
                    name: other_name,
                    price: other_price,
                    period: other_period,
                    volume: other_volume,
                },
            ) => {
                *who == *other_who
                    && *name == *other_name
                    && *price == *other_price
                    && *period == *other_period
                    && *volume == *other_volume
            }
            (
                Packing::Cancel { who, name },
                Packing::Cancel {
                    who: other_who,
                    name: other_name,
                },
            ) => *who == *other_who && *name == *other_name,
            (Packing::Close, Packing::Close) => true,
            (Packing::Whole(command), Packing::Whole(other_command)) => **command
                == **other_command,
            _ => self.command() == other.command(),
        }
    }
}

fn pack_hour<A: Allocator>(who: &Participant, name: &Name, order: &HourOrder) -> Packing<A>
    ensures { command_of result ≡ Command.Submit who.now name.now (Order.Hour order.now) }
{
    Packing::Hour {
        who: who.copy(),
        name: name.copy(),
        order: *order,
    }
}

fn pack_amend<A: Allocator>(
    who: &Participant,
    name: &Name,
    price: Price,
    period: Period,
    volume: Qty,
) -> Packing<A>
    ensures { command_of result
        ≡ Command.Amend who.now name.now price ((period, volume) ∷ []) }
{
    Packing::Amend {
        who: who.copy(),
        name: name.copy(),
        price,
        period,
        volume,
    }
}

fn pack_cancel<A: Allocator>(who: &Participant, name: &Name) -> Packing<A>
    ensures { command_of result ≡ Command.Cancel who.now name.now }
{
    Packing::Cancel {
        who: who.copy(),
        name: name.copy(),
    }
}

fn pack_whole<A: Allocator>(alloc: A, command: &Command) -> Result<Packing<A>, AllocError>
    ensures { IfOk result (λ packing. command_of packing ≡ command.now) }
{
    match Arc::new(alloc, command.copy()) {
        Ok(shared) => Ok(Packing::Whole(shared)),
        Err(_) => Err(AllocError),
    }
}

impl<A: Allocator + Copy> Clone for PackedCommand<A> {
    ghost is_clone = { λ x y. y ≡ x };

    fn clone(&self) -> Result<PackedCommand<A>, AllocError> {
        let packing = match &self.packing {
            Packing::Hour { who, name, order } => pack_hour(who, name, order),
            Packing::Amend {
                who,
                name,
                price,
                period,
                volume,
            } => pack_amend(who, name, *price, *period, *volume),
            Packing::Cancel { who, name } => pack_cancel(who, name),
            Packing::Close => Packing::Close,
            Packing::Whole(command) => Packing::Whole(Arc::try_clone(command)?),
        };
        Ok(PackedCommand { packing })
    }
}

/// An entry of a journal, whose command is packed: 48 bytes if the command takes no memory of its own.
///
/// A contract sees the entry.
#[derive(Debug, Drop)]
pub struct PackedEntry<A: Allocator = Global> {
    number: u32,
    command: PackedCommand<A>,
    reply: Reply,
}

impl<A: Allocator> Model for PackedEntry<A> {
    ghost use Rattle.dam_book.specs.declared.command.Entry.{Entry};

    ghost Value = { Entry };

    ghost view = { λ e. record { number = e.number; command = e.command; reply = e.reply } };
}

impl<A: Allocator> PackedEntry<A> {
    /// The entry of a command with this number, counted from 1, and this reply.
    pub fn new(number: u32, command: PackedCommand<A>, reply: Reply) -> PackedEntry<A>
        ensures { result ≡ record { number = number; command = command; reply = reply } }
    {
        PackedEntry {
            number,
            command,
            reply,
        }
    }

    /// The entry; it can't fail.
    pub fn entry(&self) -> Entry
        ensures { result ≡ self.now }
    {
        Entry {
            number: self.number,
            command: self.command.command(),
            reply: self.reply,
        }
    }

    /// Its number, counted from 1.
    pub fn number(&self) -> u32
        ensures { result ≡ self.now.number }
    {
        self.number
    }

    /// Its command, packed.
    pub fn command(&self) -> &PackedCommand<A>
        ensures { result.now ≡ self.now.command }
    {
        &self.command
    }

    /// The book's reply to its command.
    pub fn reply(&self) -> Reply
        ensures { result ≡ self.now.reply }
    {
        self.reply
    }

    /// Whether the other is the same entry.
    pub fn equals<B: Allocator>(&self, other: &PackedEntry<B>) -> bool
        ensures { MatchBool result (self.now ≡ other.now) (self.now ≢ other.now) }
    {
        self.number == other.number
            && self.reply == other.reply
            && self.command.equals(&other.command)
    }
}

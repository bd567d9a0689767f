//! The reasons to refuse a command, in their order, and the test of each.

ghost use Rattle.std.specs.Prelude.{◌≡◌, option_map};
ghost use Rattle.std.specs.Option.{option_copied};
ghost use Rattle.dam_book.specs.Book.{reason_word, refusal, is_period_out_of_day, is_name_taken, is_unknown_order, is_wrong_shape, is_unknown_parent, is_parent_not_block, is_hourly_full, is_blocks_full, has_children};
ghost use Rattle.dam_book.specs.inside.Reasons.{order_named, parent_named};

use crate::book::Book;
use crate::command::Command;
use crate::limits::{MOST_BLOCKS, MOST_HOURLY};
use crate::order::Order;
use std::alloc::Allocator;

/// Why the book refuses a command: the first of these that applies.
#[derive(Clone, Copy, PartialEq, Eq, Hash, Debug)]
pub enum Reason {
    /// The book is closed; a further close is refused too.
    Closed,
    /// A submit or an amend has a volume in a period that the day doesn't have.
    PeriodOutOfDay,
    /// A submit uses the name of an order that the participant has.
    NameTaken,
    /// An amend or a cancel names an order that the participant doesn't have.
    UnknownOrder,
    /// An amend gives an hourly order other than one period.
    WrongShape,
    /// A submit of a block names a parent that the participant doesn't have.
    UnknownParent,
    /// A submit of a block names an hourly order as its parent.
    ParentNotBlock,
    /// A submit of an hourly order, if the book holds `MOST_HOURLY`.
    HourlyFull,
    /// A submit of a block, if the book holds `MOST_BLOCKS`.
    BlocksFull,
    /// A cancel of a block that another of the participant's blocks names as its parent.
    HasChildren,
}

impl Reason {
    /// Its word in the printed replies.
    pub fn word(self) -> &'static str
        ensures { result.now ≡ reason_word self }
    {
        match self {
            Reason::Closed => "Closed",
            Reason::PeriodOutOfDay => "PeriodOutOfDay",
            Reason::NameTaken => "NameTaken",
            Reason::UnknownOrder => "UnknownOrder",
            Reason::WrongShape => "WrongShape",
            Reason::UnknownParent => "UnknownParent",
            Reason::ParentNotBlock => "ParentNotBlock",
            Reason::HourlyFull => "HourlyFull",
            Reason::BlocksFull => "BlocksFull",
            Reason::HasChildren => "HasChildren",
        }
    }
}

// The reasons as a book looks for them: each has a test, and the first that applies is the refusal.
//
// `named` is the order with the command's participant and name, with its place in the map.
impl<A: Allocator + Copy> Book<A> {
    pub(crate) fn refusal(
        &self,
        command: &Command,
        named: Option<(usize, &Order)>,
    ) -> Option<Reason>
        requires { option_map (λ r. r.1.now) named ≡ order_named self.now command.now }
        ensures { result ≡ refusal self.now command.now }
    {
        if self.is_closed() {
            return Some(Reason::Closed);
        }
        if self.is_period_out_of_day(command) {
            return Some(Reason::PeriodOutOfDay);
        }
        if self.is_name_taken(command, named) {
            return Some(Reason::NameTaken);
        }
        if self.is_unknown_order(command, named) {
            return Some(Reason::UnknownOrder);
        }
        if self.is_wrong_shape(command, named) {
            return Some(Reason::WrongShape);
        }
        let parent = self.parent_named(command);
        if self.is_unknown_parent(command, parent) {
            return Some(Reason::UnknownParent);
        }
        if self.is_parent_not_block(command, parent) {
            return Some(Reason::ParentNotBlock);
        }
        if self.is_hourly_full(command) {
            return Some(Reason::HourlyFull);
        }
        if self.is_blocks_full(command) {
            return Some(Reason::BlocksFull);
        }
        if self.has_children(command, named) {
            return Some(Reason::HasChildren);
        }
        None
    }

    fn is_period_out_of_day(&self, command: &Command) -> bool
        ensures { result ≡ is_period_out_of_day self.now command.now }
    {
        match command {
            Command::Submit { order, .. } => order.is_beyond(self.periods()),
            Command::Amend { volumes, .. } => volumes.is_beyond(self.periods()),
            Command::Cancel { .. } | Command::Close => false,
        }
    }

    fn is_name_taken(&self, command: &Command, named: Option<(usize, &Order)>) -> bool
        requires { option_map (λ r. r.1.now) named ≡ order_named self.now command.now }
        ensures { result ≡ is_name_taken self.now command.now }
    {
        match command {
            Command::Submit { .. } => named.is_some(),
            Command::Amend { .. } | Command::Cancel { .. } | Command::Close => false,
        }
    }

    fn is_unknown_order(&self, command: &Command, named: Option<(usize, &Order)>) -> bool
        requires { option_map (λ r. r.1.now) named ≡ order_named self.now command.now }
        ensures { result ≡ is_unknown_order self.now command.now }
    {
        match command {
            Command::Amend { .. } | Command::Cancel { .. } => named.is_none(),
            Command::Submit { .. } | Command::Close => false,
        }
    }

    fn is_wrong_shape(&self, command: &Command, named: Option<(usize, &Order)>) -> bool
        requires { option_map (λ r. r.1.now) named ≡ order_named self.now command.now }
        ensures { result ≡ is_wrong_shape self.now command.now }
    {
        match command {
            Command::Amend { volumes, .. } => match named {
                Some((_, Order::Hour(_))) => volumes.pairs().len() != 1,
                Some((_, Order::Block(_))) | None => false,
            },
            Command::Submit { .. } | Command::Cancel { .. } | Command::Close => false,
        }
    }

    // The order that a submit names as its parent.
    fn parent_named(&self, command: &Command) -> Option<&Order>
        ensures { option_copied result ≡ parent_named self.now command.now }
    {
        match command {
            Command::Submit { who, order, .. } => match order.parent() {
                Some(parent) => self.find(who, parent),
                None => None,
            },
            Command::Amend { .. } | Command::Cancel { .. } | Command::Close => None,
        }
    }

    fn is_unknown_parent(&self, command: &Command, parent: Option<&Order>) -> bool
        requires { option_copied parent ≡ parent_named self.now command.now }
        ensures { result ≡ is_unknown_parent self.now command.now }
    {
        match command {
            Command::Submit { order, .. } => order.parent().is_some() && parent.is_none(),
            Command::Amend { .. } | Command::Cancel { .. } | Command::Close => false,
        }
    }

    fn is_parent_not_block(&self, command: &Command, parent: Option<&Order>) -> bool
        requires { option_copied parent ≡ parent_named self.now command.now }
        ensures { result ≡ is_parent_not_block self.now command.now }
    {
        match command {
            Command::Submit { .. } => match parent {
                Some(parent) => parent.is_hour(),
                None => false,
            },
            Command::Amend { .. } | Command::Cancel { .. } | Command::Close => false,
        }
    }

    fn is_hourly_full(&self, command: &Command) -> bool
        ensures { result ≡ is_hourly_full self.now command.now }
    {
        match command {
            Command::Submit { order, .. } => order.is_hour() && self.hourly_count() >= MOST_HOURLY,
            Command::Amend { .. } | Command::Cancel { .. } | Command::Close => false,
        }
    }

    fn is_blocks_full(&self, command: &Command) -> bool
        ensures { result ≡ is_blocks_full self.now command.now }
    {
        match command {
            Command::Submit { order, .. } => order.is_block() && self.block_count() >= MOST_BLOCKS,
            Command::Amend { .. } | Command::Cancel { .. } | Command::Close => false,
        }
    }

    fn has_children(&self, command: &Command, named: Option<(usize, &Order)>) -> bool
        requires { option_map (λ r. r.1.now) named ≡ order_named self.now command.now }
        ensures { result ≡ has_children self.now command.now }
    {
        match command {
            Command::Cancel { who, name } => {
                let _kept = self.periods(); // for the proof: parents are blocks
                match named {
                    Some((_, order)) if order.is_hour() => false,
                    Some(_) | None => self.is_parent(who, name),
                }
            }
            Command::Submit { .. } | Command::Amend { .. } | Command::Close => false,
        }
    }
}

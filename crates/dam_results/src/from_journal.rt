//! Values that a journal can be read into, command by command.

ghost use Rattle.std.specs.Prelude.{◌≡◌, ◌+◌, ◌++◌, ◌∷◌, [], ℕ, List, length, IfOk, OnOk};
ghost use Rattle.dam_book.specs.declared.command.Command.{Command};

use dam_book::{Command, DayLength};
use std::alloc::{AllocError, Global};

/// A value made of the commands of a journal, one after another.
pub trait FromJournal: Drop {
    /// The argument of `begin`: the `Seed` by which its book hashes names, or `()` if it has no book.
    type Context: Drop;

    /// The value is made from these commands in a day of this many periods.
    ghost made_of: { ℕ → List Command → Self → Type 0 };

    /// The value of no commands.
    fn begin(alloc: Global, context: Self::Context, periods: DayLength) -> Result<Self, AllocError>
        ensures { IfOk result (made_of periods []) };

    /// Takes the command of the entry of this number, counted from 1.
    fn take_command(&mut self, number: u32, command: &Command) -> Result<(), AllocError>
        ensures { OnOk result ((periods : ℕ) (commands : List Command)
            → length commands + 1 ≡ number → made_of periods commands self.old
            → made_of periods (commands ++ command.now ∷ []) self.new) };
}

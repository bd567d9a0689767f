//! Calls at the stages of a run, for a caller that shows its progress.

use dam_search::{FreeTurn, Turnstile};

/// A turnstile that is also called with the number of refused commands, and when a search begins and when it ends.
pub trait Watch: Turnstile {
    /// Called by `run_clear` before its book is cleared, with how many of the journal's commands the book refused.
    fn on_commands_refused(&self, commands: u32);

    /// Called before a search, with the number of its pieces.
    fn on_search_begin(&self, pieces: u32);

    /// Called after the search, with or without a result.
    fn on_search_end(&self);
}

impl Watch for FreeTurn {
    fn on_commands_refused(&self, _commands: u32) {}

    fn on_search_begin(&self, _pieces: u32) {}

    fn on_search_end(&self) {}
}

/// A watch as the functions below `run_clear` and `run_day` see it. These are generic in it, and their own contracts let
/// it hear the true numbers only: a call with another number isn't proved.
///
/// Only tests show that each call is made, once and in its turn.
pub(crate) trait Listener: Turnstile {
    ghost use Rattle.std.specs.Prelude.{ℕ};

    ghost may_hear_refused: { Self → ℕ → Type 0 };

    ghost may_hear_pieces: { Self → ℕ → Type 0 };

    fn on_commands_refused(&self, commands: u32)
        requires { may_hear_refused self.now commands };

    fn on_search_begin(&self, pieces: u32)
        requires { may_hear_pieces self.now pieces };

    fn on_search_end(&self);
}

/// A caller's watch, which hears every number. Only tests show that each call is handed on as it is made.
#[derive(Drop)]
pub(crate) struct WatchOfCaller<'a, T: Watch>(pub(crate) &'a T);

impl<T: Watch> Turnstile for WatchOfCaller<'_, T> {
    fn before(&self, job: u32) {
        self.0.before(job);
    }

    fn after(&self, job: u32) {
        self.0.after(job);
    }
}

impl<T: Watch> Listener for WatchOfCaller<'_, T> {
    ghost may_hear_refused = { λ _ _. Unit {0} };

    ghost may_hear_pieces = { λ _ _. Unit {0} };

    fn on_commands_refused(&self, commands: u32) {
        self.0.on_commands_refused(commands);
    }

    fn on_search_begin(&self, pieces: u32) {
        self.0.on_search_begin(pieces);
    }

    fn on_search_end(&self) {
        self.0.on_search_end();
    }
}

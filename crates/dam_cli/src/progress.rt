//! The progress of a run, shown to a person at a terminal on standard error. It isn't printed if that isn't a terminal.

ghost use Rattle.std.specs.Prelude.{◌≡◌, ◌+◌, ◌-◌, ◌^◌, min};

use dam_engines::Watch;
use dam_search::Turnstile;
use std::fmt;
use std::sync::{Mutex, Wait};
use std::time::{Clock, Duration, Instant};

/// Takes a terminal to the beginning of the line, and clears it.
const CLEAR: &str = "\r\u{1b}[K";

/// The numbers of pieces of a search that have ended and of all its pieces, and of commands that the book refused.
#[derive(Drop)]
struct Count {
    ended: u32,
    pieces: u32,
    refused: u32,
}

impl Count {
    /// Nothing is counted yet.
    fn zero() -> Count
        ensures { result ≡ record { ended = 0; pieces = 0; refused = 0 } }
    {
        Count {
            ended: 0,
            pieces: 0,
            refused: 0,
        }
    }

    /// A search of this many pieces begins.
    fn begin(&mut self, pieces: u32)
        ensures { self.new ≡ record self.old { ended = 0; pieces = pieces } }
    {
        self.ended = 0;
        self.pieces = pieces;
    }

    /// One more piece has ended.
    fn end_piece(&mut self)
        ensures { self.new ≡ record self.old { ended = min (self.old.ended + 1) (2 ^ 32 - 1) } }
    {
        self.ended = self.ended.saturating_add(1);
    }
}

/// The line of a search.
impl fmt::Display for Count {
    ghost use Rattle.std.specs.Prelude.{Some};
    ghost use Rattle.dam_cli.specs.Shown.{pieces_text};

    ghost output = { λ count. Some (pieces_text count) };

    fn fmt<W: fmt::Write>(&self, f: &mut fmt::Formatter<W>) -> fmt::Result {
        write!(f, "dam: searched {} of {} pieces", self.ended, self.pieces)
    }
}

/// The number of commands that the book refused: at least one.
#[derive(Drop)]
struct Refused(u32);

/// The line of refused commands.
impl fmt::Display for Refused {
    ghost use Rattle.std.specs.Prelude.{Some};
    ghost use Rattle.dam_cli.specs.Shown.{refused_text};

    ghost output = { λ refused. Some (refused_text refused.0) };

    fn fmt<W: fmt::Write>(&self, f: &mut fmt::Formatter<W>) -> fmt::Result {
        let refused = self.0;
        if refused == 1 {
            f.write_str("dam: 1 command was refused, which `dam replay` shows")
        } else {
            write!(
                f,
                "dam: {refused} commands were refused, which `dam replay` shows"
            )
        }
    }
}

/// The milliseconds that a search runs before anything is shown of it.
const MOMENT: u64 = 500;

/// The count, the start of the search if the clock could be read, and whether the count's line stands at the terminal.
#[derive(Drop)]
struct State {
    count: Count,
    begun: Option<Instant>,
    is_written: bool,
}

/// Shows at a terminal how many pieces of a search have ended, once it has run for a moment. Their line is written again as
/// each ends. It is taken away before anything else is printed. `say_refused` prints how many commands the book refused.
#[derive(Drop)]
pub struct Progress<'a, R: Wait + Eprint + Clock> {
    rt: &'a R,
    is_shown: bool,
    state: Mutex<State>,
}

impl<'a, R: Wait + Eprint + Clock> Progress<'a, R> {
    /// Shows nothing, unless `is_shown`.
    pub fn new(rt: &'a R, is_shown: bool) -> Progress<'a, R>
        ensures { result.is_shown ≡ is_shown }
    {
        let state = State {
            count: Count::zero(),
            begun: None,
            is_written: false,
        };
        Progress {
            rt,
            is_shown,
            state: Mutex::new(state),
        }
    }

    /// Prints the number of commands that the book refused, if any. The results don't mention them.
    pub fn say_refused(&self) {
        let refused = self.state.lock(self.rt).count.refused;
        if !self.is_shown || refused == 0 {
            return;
        }
        let _ = eprintln!(self.rt; "{}", Refused(refused));
    }

    /// Writes the line of the count again, if the search has run for a moment.
    fn show(&self, state: &mut State) {
        if self.is_shown && self.has_moment_passed(state.begun) {
            let _ = eprint!(self.rt; "{CLEAR}{}", state.count);
            state.is_written = true;
        }
    }

    /// Whether a moment has passed since this time.
    fn has_moment_passed(&self, begun: Option<Instant>) -> bool {
        match begun {
            Some(begun) => match begun.elapsed(self.rt) {
                Ok(took) => took >= Duration::from_millis(MOMENT),
                Err(_) => false,
            },
            None => false,
        }
    }
}

impl<'a, R: Wait + Eprint + Clock> Turnstile for Progress<'a, R> {
    fn before(&self, _job: u32) {}

    fn after(&self, _job: u32) {
        let mut state = self.state.lock(self.rt);
        state.count.end_piece();
        self.show(&mut state);
    }
}

impl<'a, R: Wait + Eprint + Clock> Watch for Progress<'a, R> {
    fn on_commands_refused(&self, commands: u32) {
        self.state.lock(self.rt).count.refused = commands;
    }

    fn on_search_begin(&self, pieces: u32) {
        let mut state = self.state.lock(self.rt);
        state.count.begin(pieces);
        if self.is_shown {
            state.begun = Instant::now(self.rt).ok();
        }
    }

    fn on_search_end(&self) {
        let mut state = self.state.lock(self.rt);
        if state.is_written {
            let _ = eprint!(self.rt; "{CLEAR}");
            state.is_written = false;
        }
    }
}

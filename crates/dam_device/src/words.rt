//! The words that a program is started with.
ghost use Rattle.std.specs.Prelude.{◌≡◌};
ghost use Rattle.std.specs.Process.{exit_status};

use std::env::{self, Env, FillError};
use std::io::ErrorKind;
use std::process::ExitCode;

/// The status of a command line that is refused.
const REFUSED_STATUS: u8 = 2;

/// Why a program's words aren't read.
#[derive(Clone, Copy, PartialEq, Eq, Debug)]
pub enum WordsFault {
    /// One of them isn't UTF-8.
    NotUtf8,
    /// Memory ran out.
    Memory,
}

/// An environment whose words begin after the program's name, which need not be UTF-8.
#[derive(Drop)]
struct AfterName<'a>(&'a HostRuntime);

impl Env for AfterName<'_> {
    fn arg(&self, i: usize, buf: &mut [u8]) -> Result<usize, FillError> {
        self.0.arg(i.saturating_add(1), buf)
    }

    fn var(&self, name: &str, buf: &mut [u8]) -> Result<usize, FillError> {
        self.0.var(name, buf)
    }

    fn var_at(&self, i: usize, buf: &mut [u8]) -> Result<usize, FillError> {
        self.0.var_at(i, buf)
    }
}

/// Reads the program's words, without its name.
pub fn read_program_words(rt: &HostRuntime) -> Result<Vec<String>, WordsFault> {
    match env::args(&(AfterName(rt), rt.alloc())) {
        Ok(words) => match words.collect(rt.alloc()) {
            Ok(words) => Ok(words),
            Err(_) => Err(WordsFault::Memory),
        },
        Err(error) if error.kind() == ErrorKind::OutOfMemory => Err(WordsFault::Memory),
        Err(_) => Err(WordsFault::NotUtf8),
    }
}

/// Prints why the words are refused, and gives the exit status.
pub fn print_refusal(rt: &HostRuntime, why: &str) -> ExitCode
    ensures { exit_status result ≡ 2 }
{
    let _ = eprint!(rt; "command line\n{why}");
    ExitCode::from(REFUSED_STATUS)
}

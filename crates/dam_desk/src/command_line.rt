//! The command line.
ghost use Rattle.std.specs.Prelude.{◌≡◌, map, MatchOption};
ghost use Rattle.std.specs.String.{string_bytes};
ghost use Rattle.dam_desk.specs.CommandLine.{AskFor, is_option};
ghost use Rattle.dam_desk.specs.declared.command_line.Job.{Job};

pub(crate) const USAGE: &str = "Usage: dam-desk FILE < COMMANDS
       dam-desk --journal FILE

Keeps the journal of a day in FILE. Each line of standard input is a record
of the journal, with the day first if FILE is new. Each line is answered on
standard output once its record is safe in FILE.

      --journal FILE  prints the journal in FILE, also while a desk has it
      --help          prints this help
";

/// The job for which the words ask.
#[derive(Clone, Copy, PartialEq, Eq, Debug)]
pub(crate) enum Job<'a> {
    /// A desk with this file.
    Serve(&'a str),
    /// The journal in this file.
    Journal(&'a str),
    Help,
}

/// The job for which the words ask, if they ask for one.
pub(crate) fn job_of(words: &[String]) -> Option<Job<'_>>
    ensures { MatchOption result
        ((job : Job) → ¬ (AskFor (map string_bytes words.now) job))
        (AskFor (map string_bytes words.now)) }
{
    match words {
        [word] if word.as_str() == "--help" => Some(Job::Help),
        [file] if !is_option(file.as_str()) => Some(Job::Serve(file.as_str())),
        [word, file] if word.as_str() == "--journal" => Some(Job::Journal(file.as_str())),
        _ => None,
    }
}

/// Whether the word is an option.
fn is_option(word: &str) -> bool
    ensures { result ≡ is_option word.now }
{
    word.as_bytes().starts_with(b"-")
}

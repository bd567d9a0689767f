//! From words to a job, or to `clap`'s refusal of them.
ghost use Rattle.std.specs.Prelude.{◌≡◌, Some, map, IfOk, IfErr};
ghost use Rattle.clap.specs.Words.{found_of, rows_of};
ghost use Rattle.std.specs.Int.{IsInRange};
ghost use Rattle.dam_line.specs.Options.{terms_of};
ghost use Rattle.dam_line.specs.Line.{AsksFor, IsSubcommand, IsLineFault, IsRefusal};
ghost use Rattle.dam_line.specs.Line.{is_help, job_of, number_given, plan_given};

use crate::command::{CLEAR, DAY, REPLAY, program_command};
use crate::options::{CUT, NODES, NumberOption, WORKERS};
use clap::ArgMatches;
use clap::error::ErrorKind;
use dam_plan::Plan;
use std::alloc::{AllocError, Global};
use std::convert::AsStr;
use thiserror::Error;

/// The job that words ask for.
#[derive(Clone, Copy, PartialEq, Eq, Debug)]
pub enum Job {
    /// The book's reply to each command.
    Replay,
    /// The results of the closed book, by a search under the plan.
    Clear(Plan),
    /// A day of participants who act at the same time: its journal, and its results by a search under the plan.
    Day(Plan),
}

/// Why words don't ask for a job.
///
/// The text is `clap`'s, so the contracts don't state it.
#[derive(PartialEq, Eq, Debug, Drop, Error)]
pub enum LineFault {
    /// `clap` refuses the words. If they ask for help, `help` is true and `text` is the help. Otherwise
    /// `text` is the error message, or the help if there are no words.
    #[error("{text}")]
    Refused { help: bool, text: String },
    /// A growth was refused.
    #[error("out of memory")]
    Memory,
}

/// The job that the words after the program's name ask for, as `clap` reads them: a subcommand, and
/// then its options in any order, each `--NAME NUMBER` or `--NAME=NUMBER`, once at most.
pub fn read_job<'a, S: AsStr>(alloc: Global, words: &'a [S]) -> Result<Job, LineFault>
    ensures ok { IfOk result (AsksFor (map S.text words.entry.now)) }
    ensures refused { IfErr result (IsLineFault (map S.text words.entry.now)) }
{
    let Ok(command) = program_command(alloc) else {
        return Err(LineFault::Memory);
    };
    let matches = match command.try_get_matches_from(words) {
        Ok(matches) => matches,
        Err(error) => return Err(fault_of_error(error.kind(), error.to_string(alloc))),
    };
    let Some((name, options)) = matches.subcommand() else {
        unreachable!();
    };
    Ok(job_of(name, options))
}

/// The fault for an error of `clap`, by its kind and its text.
fn fault_of_error(kind: ErrorKind, text: Result<String, AllocError>) -> LineFault
    ensures { IsRefusal kind text result }
{
    match (kind, text) {
        (ErrorKind::OutOfMemory, _) | (_, Err(_)) => LineFault::Memory,
        (_, Ok(text)) => LineFault::Refused {
            help: is_help(kind),
            text,
        },
    }
}

/// Whether help was asked for.
fn is_help(kind: ErrorKind) -> bool
    ensures { result ≡ is_help kind }
{
    matches!(kind, ErrorKind::DisplayHelp)
}

/// The job of a subcommand.
fn job_of(name: &str, options: &ArgMatches<'_>) -> Job
    requires { IsSubcommand name.now }
    ensures { job_of (name.now, rows_of (found_of options.now)) ≡ Some result }
{
    if name == REPLAY {
        Job::Replay
    } else if name == CLEAR {
        Job::Clear(plan_given(options))
    } else if name == DAY {
        Job::Day(plan_given(options))
    } else {
        unreachable!()
    }
}

/// The plan of a subcommand's options.
fn plan_given(options: &ArgMatches<'_>) -> Plan
    ensures { result ≡ plan_given (rows_of (found_of options.now)) }
{
    let workers = number_given(options, WORKERS);
    let cut = number_given(options, CUT);
    let nodes = number_given(options, NODES);
    let Some(plan) = Plan::new(workers as u8, cut as u8, nodes) else {
        unreachable!();
    };
    plan
}

/// The number of an option: its default if the options give none in its range.
fn number_given(options: &ArgMatches<'_>, option: NumberOption) -> u32
    requires { IsInRange option.least option.most option.default }
    ensures value { result ≡ number_given (terms_of option) (rows_of (found_of options.now)) }
    ensures range { IsInRange option.least option.most result }
{
    match options.get_one::<u32>(option.name) {
        Some(number) if option.least <= number && number <= option.most => number,
        _ => option.default,
    }
}

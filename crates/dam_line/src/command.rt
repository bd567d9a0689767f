//! The subcommands and their help, as `clap` is told them.
ghost use Rattle.std.specs.Prelude.{◌≡◌, false, codes, IfOk};
ghost use Rattle.clap.specs.declared.builder.command.Command.TheViews.{out-Command as fields_of};
ghost use Rattle.clap.specs.Words.{app_of, new_app, rule_of, shape_of};
ghost use Rattle.dam_line.specs.Options.{HasItsNumbers, terms_of};
ghost use Rattle.dam_line.specs.Line.{clear, day, program, rule_for, with_plan, with_subcommands};

use crate::options::{CUT, NODES, NumberOption, WORKERS};
use clap::{Arg, ArgAction, Command, value_parser};
use std::alloc::{AllocError, Global};

/// The command that prints the book's reply to each command of a journal.
pub(crate) const REPLAY: &str = "replay";

/// The command that prints the results of a journal's closed book.
pub(crate) const CLEAR: &str = "clear";

/// The command that runs the commands of a journal as a day with participants, and prints its journal and its results.
pub(crate) const DAY: &str = "day";

/// The way in which the program gets its journal.
const USAGE: &str = "dam replay < JOURNAL
       dam clear [OPTIONS] < JOURNAL
       dam day [OPTIONS] < JOURNAL";

const JOURNAL_EXAMPLE: &str =
    "The journal is read from standard input. It is a text of comma-separated values: a day with its
number of periods, and then its participants' commands, as

  day,24,,,,,,,
  submit,NORD,WIND-8,hour,sell,1200,8:450,,
  submit,STAD,BASE-8,hour,buy,9500,8:300,,
  close,,,,,,,,

Example: with these lines in a file `first-day.csv`, this prints the prices of the day, and the
result of each order:

  dam clear < first-day.csv

`dam replay --help`, `dam clear --help` and `dam day --help` say more about each command.";

const REPLAY_EXAMPLE: &str = "The journal is read from standard input. `dam --help` shows one.

Example: dam replay < first-day.csv";

const CLEAR_EXAMPLE: &str =
    "No option changes the results. --workers and --cut change how long the search takes. With --nodes it
may give up, with status 3; whether it does can depend on the other two as well.

The journal is read from standard input. `dam --help` shows one.

Example: dam clear --workers 4 --cut 6 < first-day.csv";

const DAY_EXAMPLE: &str =
    "No option changes the results. --workers and --cut change how long the search takes. With --nodes it
may give up, with status 3; whether it does can depend on the other two as well.

The journal is read from standard input, without its last record, the close. `dam --help` shows one
with it.

Example:

  dam day --workers 4 --cut 6 < orders.csv";

/// The option as `clap` has it.
fn number_option<'a>(alloc: Global, option: NumberOption) -> Arg<'a>
    requires { HasItsNumbers option }
    ensures rule { rule_of result ≡ rule_for (terms_of option) }
    ensures local { result.global ≡ false }
{
    let range = i64::from(option.least)..=i64::from(option.most);
    Arg::new(alloc, option.name)
        .long(option.name)
        .action(ArgAction::Set)
        .value_name(option.letter)
        .value_parser(value_parser!(u32).range(range))
        .default_value(option.default_text)
        .help(option.help)
}

/// The command with the options of a plan.
fn with_plan<'a>(alloc: Global, command: Command<'a>) -> Result<Command<'a>, AllocError>
    requires { (fields_of command).has_globals ≡ false }
    ensures app { IfOk result (λ c. app_of c ≡ with_plan (app_of command.entry)) }
    ensures local { IfOk result (λ c. (fields_of c).has_globals ≡ false) }
{
    command
        .arg(number_option(alloc, WORKERS))?
        .arg(number_option(alloc, CUT))?
        .arg(number_option(alloc, NODES))
}

fn replay_command<'a>(alloc: Global) -> Command<'a>
    ensures app { app_of result ≡ new_app (codes "replay") }
    ensures local { (fields_of result).has_globals ≡ false }
{
    Command::new(alloc, REPLAY)
        .about("Prints the order book's reply to each command of the journal")
        .override_usage("dam replay < JOURNAL")
        .after_help(REPLAY_EXAMPLE)
}

fn clear_command<'a>(alloc: Global) -> Result<Command<'a>, AllocError>
    ensures shape { IfOk result (λ c. shape_of c ≡ clear) }
    ensures local { IfOk result (λ c. (fields_of c).has_globals ≡ false) }
{
    let command = Command::new(alloc, CLEAR)
        .about("Prints the prices of the journal's day and the result of each order")
        .override_usage("dam clear [OPTIONS] < JOURNAL")
        .after_help(CLEAR_EXAMPLE);
    with_plan(alloc, command)
}

fn day_command<'a>(alloc: Global) -> Result<Command<'a>, AllocError>
    ensures shape { IfOk result (λ c. shape_of c ≡ day) }
    ensures local { IfOk result (λ c. (fields_of c).has_globals ≡ false) }
{
    let command = Command::new(alloc, DAY)
        .about("Runs a day of participants on threads, and prints its journal and results")
        .override_usage("dam day [OPTIONS] < JOURNAL")
        .after_help(DAY_EXAMPLE);
    with_plan(alloc, command)
}

/// The program with its subcommands.
fn with_subcommands<'a>(alloc: Global, command: Command<'a>) -> Result<Command<'a>, AllocError>
    requires { (fields_of command).has_globals ≡ false }
    ensures { IfOk result (λ c. app_of c ≡ with_subcommands (app_of command.entry)) }
{
    command
        .subcommand(replay_command(alloc))?
        .subcommand(clear_command(alloc)?)?
        .subcommand(day_command(alloc)?)
}

/// The program's command.
pub(crate) fn program_command<'a>(alloc: Global) -> Result<Command<'a>, AllocError>
    ensures { IfOk result (λ c. app_of c ≡ program) }
{
    let command = Command::new(alloc, "dam")
        .about("A day-ahead auction of electricity, read from a journal of its orders")
        .override_usage(USAGE)
        .after_help(JOURNAL_EXAMPLE);
    let command = with_subcommands(alloc, command)?;
    Ok(
        command
            .subcommand_required(true)
            .arg_required_else_help(true)
            .disable_help_subcommand(true)
            .no_binary_name(true),
    )
}

//! `dam`, a day-ahead auction of electricity, which reads a journal of commands from standard input:
//! `dam replay` prints the reply of the order book to each, `dam clear` the results of the closed book;
//! `dam day` has the participants enter theirs at the same time, and prints the journal of that day and its
//! results.
#![tactic(auto)]

mod advice;
mod progress;
mod run;

ghost use Rattle.std.specs.Prelude.{◌≡◌, false, map, IfErr, IfOk, OnOk};
ghost use Rattle.std.specs.Process.{exit_status};
ghost use Rattle.std.specs.String.{string_bytes};
ghost use Rattle.dam_engines.specs.Fault.{fault_status};
ghost use Rattle.dam_line.specs.Line.{AsksFor};
ghost use Rattle.dam_cli.specs.Run.{EndsAsAsked};
ghost use Rattle.dam_cli.specs.Status.{IsAnswered, IsHelp, IsUnasked, run_status, words_status};

use advice::{asks_version, command_and_file, quote_of, rule_of};
use dam_book::Seed;
use dam_device::{WordsFault, print_refusal, read_program_words};
use dam_engines::{RunFault, Sink, Source, fixed_fault_line, status, write_text};
use dam_line::{Job, LineFault, read_job};
use progress::Progress;
use run::run_job;
use std::io::{IsTerminal, Read, Write};
use std::process::ExitCode;
use std::sync::Wait;
use std::thread::Threads;
use std::time::Clock;

fn main(rt: HostRuntime) -> ExitCode {
    let words = match read_program_words(&rt) {
        Ok(words) => words,
        Err(fault) => return print_words_fault(&rt, fault),
    };
    let (mut input, mut output) = (Source::new(rt.stdin()), Sink::new(rt.stdout()));
    run_words(&rt, &rt, words.as_slice(), &mut input, &mut output)
}

/// Runs the job that the words ask for, under its plan, from the reader to the writer, and returns the exit status. If they ask for
/// none, writes the help or prints the refusal, and the reader isn't called. The handle starts threads and reads the clock.
fn run_words<H: Threads + Wait + Sync + Eprint + Clock, R: Read, W: Write>(
    rt: &HostRuntime,
    handle: &H,
    words: &[String],
    reader: &mut Source<R>,
    writer: &mut Sink<W>,
) -> ExitCode
    requires reads { reader.old.failed ≡ false }
    requires writes { writer.old.failed ≡ false }
    ensures { EndsAsAsked (map string_bytes words.now) reader.old reader.new writer.old writer.new
        (exit_status result) }
{
    let job = match read_job_or_answer(rt, words, writer) {
        Ok(job) => job,
        Err(status) => return status,
    };
    print_terminal_hint(rt);
    let progress = Progress::new(handle, rt.stderr().is_terminal());
    let seed = Seed::drawn(rt);
    let done = run_job(handle, rt.alloc(), seed, job, reader, writer, &progress);
    print_end(rt, &progress, done)
}

/// The exit status of a run that ended so. Prints the fault's line or, at a terminal, how many commands were refused.
fn print_end<R: Wait + Eprint + Clock>(
    rt: &HostRuntime,
    progress: &Progress<'_, R>,
    done: Result<(), RunFault>,
) -> ExitCode
    ensures { exit_status result ≡ run_status done }
{
    match done {
        Ok(()) => {
            progress.say_refused();
            ExitCode::SUCCESS
        }
        Err(fault) => print_fault(rt, &fault),
    }
}

/// The job that the words ask for. If they ask for none, answers them; the error is then the exit status.
fn read_job_or_answer<W: Write>(
    rt: &HostRuntime,
    words: &[String],
    writer: &mut Sink<W>,
) -> Result<Job, ExitCode>
    requires { writer.old.failed ≡ false }
    ensures job { IfOk result (AsksFor (map string_bytes words.now)) }
    ensures uncalled { OnOk result (writer.new ≡ writer.old) }
    ensures ended { IfErr result (λ status. IsUnasked (map string_bytes words.now)
        writer.old writer.new (exit_status status)) }
{
    match read_job(rt.alloc(), words) {
        Ok(job) => Ok(job),
        Err(fault) => Err(answer_line_fault(rt, &fault, words, writer)),
    }
}

/// Prints why the program's words aren't read, and gives the exit status.
fn print_words_fault(rt: &HostRuntime, fault: WordsFault) -> ExitCode
    ensures { exit_status result ≡ words_status fault }
{
    match fault {
        WordsFault::NotUtf8 => print_refusal(rt, "error: a word isn't UTF-8\n"),
        WordsFault::Memory => print_fault(rt, &RunFault::Memory),
    }
}

/// At a terminal, prints that the program reads the journal from it; otherwise it would seem to hang.
fn print_terminal_hint(rt: &HostRuntime) {
    if rt.stdin().is_terminal() && rt.stderr().is_terminal() {
        let _ = eprintln!(rt; "dam: reading a journal from this terminal; end it with Ctrl-D");
    }
}

/// Prints the fault's line, which needs no memory, and gives its status. At a terminal a second line says which rule the
/// input breaks.
fn print_fault(rt: &HostRuntime, fault: &RunFault) -> ExitCode
    ensures { exit_status result ≡ fault_status fault.now }
{
    let _ = rt
        .stderr()
        .write_all(fixed_fault_line(fault).as_str().as_bytes());
    if let Some(rule) = rule_of(fault) {
        if rt.stderr().is_terminal() {
            let _ = eprintln!(rt; "dam: {rule}");
        }
    }
    ExitCode::from(status(fault))
}

/// Answers words that ask for no job: writes the help if they ask for it, or prints why they are refused. Returns the exit
/// status.
fn answer_line_fault<W: Write>(
    rt: &HostRuntime,
    fault: &LineFault,
    words: &[String],
    writer: &mut Sink<W>,
) -> ExitCode
    requires { writer.old.failed ≡ false }
    ensures { IsAnswered fault.now writer.old writer.new (exit_status result) }
{
    match fault {
        LineFault::Refused { help: true, text } => write_help(rt, text.as_str(), writer),
        LineFault::Refused { help: false, text } => {
            let status = print_refusal(rt, text.as_str());
            print_refusal_hint(rt, words);
            status
        }
        LineFault::Memory => print_fault(rt, &RunFault::Memory),
    }
}

/// Writes the help, and gives the exit status.
fn write_help<W: Write>(rt: &HostRuntime, help: &str, writer: &mut Sink<W>) -> ExitCode
    requires { writer.old.failed ≡ false }
    ensures { IsHelp help.now writer.old writer.new (exit_status result) }
{
    match write_text(writer, help.as_bytes()) {
        Ok(()) => ExitCode::SUCCESS,
        Err(fault) => print_fault(rt, &fault),
    }
}

/// At a terminal, prints a line for refused words: if they ask for the version, the command that prints it; otherwise, if
/// one of them may be a journal's file, how it is read.
fn print_refusal_hint(rt: &HostRuntime, words: &[String]) {
    if rt.stderr().is_terminal() {
        if asks_version(words) {
            let _ = eprintln!(rt;
                "dam: dam-audit --version prints the version; in a clone, ./dam --version does"
            );
        } else if let Some((command, file)) = command_and_file(words) {
            let quote = quote_of(file);
            let _ = eprintln!(rt;
                "dam: a journal is read from standard input: dam {command} < {quote}{file}{quote}"
            );
        }
    }
}

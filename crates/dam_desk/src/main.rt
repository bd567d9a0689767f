//! `dam-desk`, which keeps the journal of a day in a file, and answers each command once it is safe there.
#![tactic(auto)]

ghost use Rattle.std.specs.Prelude.{◌≡◌, ◌↔◌, ◌⊎◌, ℕ, true, false, List, Option, Some, IfErr, IfSome, OnOk};
ghost use Rattle.std.specs.Io.KnownBytes.{Appends};
ghost use Rattle.std.specs.Process.{exit_status};
ghost use Rattle.dam_desk.specs.DeskJournal.{JournalContent, OpensTo, desk_journal_text};
ghost use Rattle.std.specs.declared.io.Error.{Error};
ghost use Rattle.dam_store.specs.Faults.{of_io};
ghost use Rattle.dam_desk.specs.Faults.{IsFileFault, IsWritingFault, fault_status, is_write, of_file};

mod command_line;
mod desk;
mod desk_day;
mod fault;
mod fault_answer;
mod input_line;
mod intake;
mod laws;
mod limits;
mod meaning;
mod open_desk;
mod output;
mod replay;
mod run_desk;
mod serve;
mod stored_journal;
mod text_lines;

use command_line::{Job, USAGE, job_of};
use dam_book::Seed;
use dam_device::{Sink, Source, WordsFault, print_refusal, read_program_words};
use fault::DeskFault;
use output::write_text;
use run_desk::serve_file;
use sqlite_std_file::Wary;
use std::fs;
use std::io::{Read, Write};
use std::os::unix::fs::MetadataExt;
use std::process::ExitCode;
use stored_journal::{open_to_read, read_file_bytes, stored_journal_text};

fn main(rt: HostRuntime) -> ExitCode {
    let words = match read_program_words(&rt) {
        Ok(words) => words,
        Err(WordsFault::NotUtf8) => return print_refusal(&rt, USAGE),
        Err(WordsFault::Memory) => return print_fault(&rt, &DeskFault::Memory),
    };
    let done = match job_of(words.as_slice()) {
        Some(Job::Serve(path)) => serve_standard(&rt, path),
        Some(Job::Journal(path)) => print_stored_journal(&rt, path),
        Some(Job::Help) => write_text(&mut Sink::new(rt.stdout()), USAGE.as_bytes()),
        None => return print_refusal(&rt, USAGE),
    };
    match done {
        Ok(()) => ExitCode::SUCCESS,
        Err(fault) => print_fault(&rt, &fault),
    }
}

/// Serves the journal in a file, from standard input to standard output.
fn serve_standard(rt: &HostRuntime, path: &str) -> Result<(), DeskFault> {
    if is_own_output(rt, path) {
        return Err(DeskFault::OwnOutput);
    }
    let (mut input, mut output) = (Source::new(rt.stdin()), Sink::new(rt.stdout()));
    let ended = serve_file(rt, path, Wary, &mut input, &mut output)?;
    ended.result
}

/// Whether standard output goes to the file at `path`: the answers would destroy the journal.
fn is_own_output(rt: &HostRuntime, path: &str) -> bool {
    match read_file_numbers(rt, "/dev/stdout") {
        Some(output) => is_this_file(output, read_file_numbers(rt, path)),
        None => false,
    }
}

/// A file of the system, by the number of its device and its own there.
#[derive(Clone, Copy, PartialEq, Eq)]
struct FileNumbers {
    device: u64,
    inode: u64,
}

/// The file at `path`; `None` if there is none, or only a pipe, a terminal or a folder.
fn read_file_numbers(rt: &HostRuntime, path: &str) -> Option<FileNumbers> {
    match fs::metadata(rt, path) {
        Ok(file) if file.is_file() => Some(FileNumbers {
            device: file.dev(),
            inode: file.ino(),
        }),
        _ => None,
    }
}

/// Whether there is a file, and it is this one.
fn is_this_file(output: FileNumbers, found: Option<FileNumbers>) -> bool
    ensures { (result ≡ true) ↔ (found ≡ Some output) }
{
    found == Some(output)
}

/// Prints the journal in a file. It doesn't lock the file or change it.
fn print_stored_journal(rt: &HostRuntime, path: &str) -> Result<(), DeskFault> {
    let mut file = open_to_read(rt, path)?;
    print_journal(rt, &mut file, &mut Sink::new(rt.stdout()))
}

/// Writes the journal that a file holds, which is read to its end. A file that a desk refuses has the same fault here.
fn print_journal<R: Read, W: Write>(
    rt: &HostRuntime,
    file: &mut R,
    writer: &mut Sink<W>,
) -> Result<(), DeskFault>
    requires { writer.old.failed ≡ false }
    ensures printed { OnOk result ((bytes : List ℕ) × (journal : Option JournalContent)
        × IfSome (R.remaining file.old) (λ left. bytes ≡ left)
        × OpensTo journal bytes
        × Appends writer.old.taken writer.new.taken (desk_journal_text journal)) }
    ensures cause { OnOk result (writer.new.failed ≡ false) }
    ensures refused { IfErr result (λ fault. is_write fault ≡ false
        → (writer.new ≡ writer.old)
        × (((error : Error) × (fault ≡ of_file (of_io error)))
        ⊎ ((bytes : List ℕ) × IfSome (R.remaining file.old) (λ left. bytes ≡ left)
        × IsFileFault bytes fault))) }
    ensures unwritten { IfErr result (λ fault. is_write fault ≡ true → (bytes : List ℕ)
        × (journal : Option JournalContent)
        × IfSome (R.remaining file.old) (λ left. bytes ≡ left)
        × OpensTo journal bytes
        × IsWritingFault writer.old.taken writer.new.taken (desk_journal_text journal) fault) }
{
    let bytes = read_file_bytes(rt.alloc(), file)?;
    let text = stored_journal_text(rt.alloc(), Seed::drawn(rt), bytes.as_slice())?;
    write_text(writer, text.as_slice())
}

/// Prints the fault's line, and gives its status.
fn print_fault(rt: &HostRuntime, fault: &DeskFault) -> ExitCode
    ensures { exit_status result ≡ fault_status fault.now }
{
    let _ = eprintln!(rt; "{fault}");
    ExitCode::from(fault.status())
}

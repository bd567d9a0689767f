//! Repairs the end of a file, or makes the file whole, by writes after each of which it stands for the same lines.
ghost use Rattle.std.specs.Prelude.{◌≡◌, ◌+◌, ◌∷◌, ◌<◌, ◌≤◌, [], false, true, None, ◌==◌, ◌-◌, ◌++◌, slice_index, length, take, drop, replicate, IsTrue, IfOk, IfErr, OnOk};
ghost use Rattle.dam_store.specs.Limits.{most_file_bytes};
ghost use Rattle.dam_store.specs.FileLines.{is_unmade, head_line, lines_in, stands_for, StandsFor};
ghost use Rattle.dam_store.specs.inside.Shape.{has_newline, IsAtRest};
ghost use Rattle.dam_store.specs.inside.Synced.{IsSynced, IsReadWhole, IsReadFrom, IsRest, IsRepaired, CrashLeaves};
ghost use Rattle.dam_store.specs.inside.Writing.{OnlyWrites};
ghost use Rattle.dam_store.specs.Faults.{is_failed_write};

use crate::disk::write_and_sync;
use crate::fault::StoreFault;
use sqlite_disk::Disk;
use std::alloc::AllocError;

/// The first line of each file that was made whole: the name of the format, after the program that it was made for.
pub(crate) const HEAD_LINE: [u8; 12] = *b"+dam-desk 1\n";

const AFTER_FIRST: [u8; 12] = *b"dam-desk 1\n-";

/// Whether the bytes are of a file that was never made whole: no store holds lines in it yet.
pub(crate) fn is_unmade(bytes: &[u8]) -> bool
    ensures { result ≡ is_unmade bytes.now }
{
    match bytes {
        [] | [_] => true,
        [first, rest @ ..] => {
            (*first == b'-' && rest.len() <= AFTER_FIRST.len()) || rest == AFTER_FIRST.as_slice()
        }
    }
}

/// Whether the bytes begin with the mark of a line that doesn't count yet.
fn begins_uncounted_line(bytes: &[u8]) -> bool
    ensures { result ≡ (slice_index bytes.now 0 == 45) }
{
    matches!(bytes, [b'-', ..])
}

/// Whether a newline is among the bytes from `at` on.
fn has_newline_after(bytes: &[u8], at: usize) -> bool
    ensures { result ≡ has_newline (drop at bytes.now) }
{
    at < bytes.len() && bytes[at..].contains(&b'\n')
}

/// Writes the mark of a line that doesn't count yet at the first byte of a file that was never made whole, unless it is
/// there.
fn write_first_mark<D: Disk>(disk: &mut D, bytes: &[u8]) -> Result<(), StoreFault>
    requires read { IsReadWhole D.Disk disk.old bytes.now }
    requires unmade { is_unmade bytes.now ≡ true }
    ensures synced { OnOk result (IsSynced D.Disk disk.new) }
    ensures begun { OnOk result (IsTrue (D.Disk.is_clean disk.new)
        → D.Disk.seen disk.new ≡ 45 ∷ drop 1 bytes.now) }
    ensures crash { CrashLeaves D.Disk disk.new (StandsFor []) }
    ensures writes { OnlyWrites D.Disk disk.old disk.new result }
    ensures failed { IfErr result (λ fault. is_failed_write fault ≡ true) }
{
    if begins_uncounted_line(bytes) {
        return Ok(());
    }
    write_and_sync(disk, 0, b"-")?;
    Ok(())
}

/// Makes a file whole that never was.
fn write_head_line<D: Disk>(disk: &mut D, bytes: &[u8]) -> Result<(), StoreFault>
    requires read { IsReadWhole D.Disk disk.old bytes.now }
    requires unmade { is_unmade bytes.now ≡ true }
    ensures synced { OnOk result (IsSynced D.Disk disk.new) }
    ensures at_rest { OnOk result (IsTrue (D.Disk.is_clean disk.new)
        → IsAtRest (D.Disk.seen disk.new) (length head_line) []) }
    ensures crash { CrashLeaves D.Disk disk.new (StandsFor []) }
    ensures writes { OnlyWrites D.Disk disk.old disk.new result }
    ensures failed { IfErr result (λ fault. is_failed_write fault ≡ true) }
{
    write_first_mark(disk, bytes)?;
    write_and_sync(disk, 1, &AFTER_FIRST)?;
    write_and_sync(disk, 0, b"+")?;
    Ok(())
}

/// In memory, replaces the bytes from `at` on with blanks.
fn fill_with_blanks(bytes: &mut Vec<u8>, at: usize) -> Result<(), AllocError>
    requires { at ≤ length bytes.old.items }
    ensures { OnOk result (bytes.new.items
        ≡ take at bytes.old.items ++ replicate (length bytes.old.items - at) 32) }
{
    let len = bytes.len();
    bytes.truncate(at);
    bytes.resize(len, b' ')?;
    Ok(())
}

/// Writes blanks over the bytes after the byte at `end`, if a newline is among them.
fn write_blanks<D: Disk>(disk: &mut D, end: usize, rest: &mut Vec<u8>) -> Result<(), StoreFault>
    requires { IsReadFrom D.Disk disk.old end rest.old.items }
    ensures read { OnOk result (IsReadFrom D.Disk disk.new end rest.new.items) }
    ensures lines { OnOk result (IsTrue (D.Disk.is_clean disk.new)
        → lines_in (D.Disk.seen disk.new) ≡ lines_in (D.Disk.seen disk.old)) }
    ensures last { OnOk result (has_newline (drop 1 rest.new.items) ≡ false) }
    ensures crash { CrashLeaves D.Disk disk.new (StandsFor (lines_in (D.Disk.seen disk.old))) }
    ensures writes { OnlyWrites D.Disk disk.old disk.new result }
{
    if !has_newline_after(rest, 1) {
        return Ok(());
    }
    fill_with_blanks(rest, 1)?;
    write_and_sync(disk, end + 1, &rest[1..])?;
    Ok(())
}

/// Writes the mark of a line that doesn't count yet at `end`, unless it is there.
fn write_end_mark<D: Disk>(disk: &mut D, end: usize, rest: &[u8]) -> Result<(), StoreFault>
    requires read { IsReadFrom D.Disk disk.old end rest.now }
    requires last { has_newline (drop 1 rest.now) ≡ false }
    ensures synced { OnOk result (IsSynced D.Disk disk.new) }
    ensures at_rest { OnOk result (IsTrue (D.Disk.is_clean disk.new)
        → IsAtRest (D.Disk.seen disk.new) end (lines_in (D.Disk.seen disk.old))) }
    ensures crash { CrashLeaves D.Disk disk.new (StandsFor (lines_in (D.Disk.seen disk.old))) }
    ensures writes { OnlyWrites D.Disk disk.old disk.new result }
    ensures failed { IfErr result (λ fault. is_failed_write fault ≡ true) }
{
    if begins_uncounted_line(rest) {
        return Ok(());
    }
    write_and_sync(disk, end, b"-")?;
    Ok(())
}

/// Makes the end of the file tidy: no whole line after `end`, and there the mark of a line that doesn't count yet.
fn tidy_end<D: Disk>(disk: &mut D, end: usize, mut rest: Vec<u8>) -> Result<(), StoreFault>
    requires { IsReadFrom D.Disk disk.old end rest.items }
    ensures synced { OnOk result (IsSynced D.Disk disk.new) }
    ensures opened { OnOk result (IsTrue (D.Disk.is_clean disk.new)
        → IsRepaired D.Disk disk.new (D.Disk.seen disk.old) end) }
    ensures crash { CrashLeaves D.Disk disk.new (λ file. stands_for file
        ≡ stands_for (D.Disk.seen disk.old)) }
    ensures writes { OnlyWrites D.Disk disk.old disk.new result }
{
    write_blanks(disk, end, &mut rest)?;
    write_end_mark(disk, end, &rest)?;
    Ok(())
}

/// Makes a file whole that never was, or makes its end tidy. Returns where its lines end.
pub(crate) fn repair<D: Disk>(
    disk: &mut D,
    end: Option<usize>,
    rest: Vec<u8>,
) -> Result<usize, StoreFault>
    requires { IsRest D.Disk disk.old end rest.items }
    ensures synced { OnOk result (IsSynced D.Disk disk.new) }
    ensures opened { IfOk result (λ end. IsTrue (D.Disk.is_clean disk.new)
        → IsRepaired D.Disk disk.new (D.Disk.seen disk.old) end) }
    ensures room { IfOk result (λ end. end < most_file_bytes) }
    ensures crash { CrashLeaves D.Disk disk.new (λ file. stands_for file
        ≡ stands_for (D.Disk.seen disk.old)) }
    ensures writes { OnlyWrites D.Disk disk.old disk.new result }
{
    match end {
        Some(end) => {
            tidy_end(disk, end, rest)?;
            Ok(end)
        }
        None => {
            write_head_line(disk, &rest)?;
            Ok(HEAD_LINE.len())
        }
    }
}

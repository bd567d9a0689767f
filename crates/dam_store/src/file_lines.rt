//! The lines of a store as a text, read from the bytes of its file, or from its disk.
ghost use Rattle.std.specs.Prelude.{◌≡◌, ◌⊎◌, ◌≤◌, ℕ, List, true, not, length, drop, IsTrue, IfOk, IfErr, OnOk};
ghost use Rattle.dam_store.specs.Limits.{most_file_bytes};
ghost use Rattle.dam_store.specs.FileLines.{text_of, StandsFor};
ghost use Rattle.dam_store.specs.Faults.{is_failed_read, is_failed_sync, is_refused_file, IsRefused};
ghost use Rattle.dam_store.specs.inside.Reading.{OnlyReads};
ghost use Rattle.dam_store.specs.inside.Shape.{IsEnd, rest_of};
ghost use Rattle.dam_store.specs.inside.Synced.{IsRest, IsSynced};
ghost use Rattle.dam_store.specs.declared.fault.StoreFault.TheVariants.{Memory};

use crate::disk::read_file;
use crate::fault::StoreFault;
use crate::limits::MOST_FILE_BYTES;
use crate::marked_lines::read_marked_lines;
use crate::recovery::{HEAD_LINE, is_unmade};
use sqlite_disk::Disk;
use std::alloc::Global;

/// The lines that a file's bytes stand for.
#[derive(Drop)]
pub(crate) struct FileLines {
    /// The lines, with a newline at the end of each.
    pub(crate) text: Vec<u8>,
    /// The end of them. None: the file was never made whole.
    pub(crate) end: Option<usize>,
}

/// The lines that a file's bytes stand for.
pub(crate) fn lines_of_file_bytes(alloc: Global, file: &[u8]) -> Result<FileLines, StoreFault>
    requires { length file.now ≤ most_file_bytes }
    ensures text { IfOk result (λ found. (lines : List (List ℕ))
        × StandsFor lines file.now × (found.text.items ≡ text_of lines)) }
    ensures end { IfOk result (λ found. IsEnd file.now found.end) }
    ensures fault { IfErr result (λ fault. (fault ≡ Memory) ⊎ IsRefused file.now fault) }
{
    if !file.starts_with(&HEAD_LINE) {
        return if is_unmade(file) {
            let text = Vec::new(alloc);
            Ok(FileLines { text, end: None })
        } else {
            Err(StoreFault::NotAStore)
        };
    }
    let found = read_marked_lines(alloc, &file[HEAD_LINE.len()..])?;
    let end = HEAD_LINE.len() + found.end;
    if end >= MOST_FILE_BYTES {
        return Err(StoreFault::Full);
    }
    Ok(FileLines {
        text: found.text,
        end: Some(end),
    })
}

/// The lines that a file's bytes stand for, with a newline at the end of each. Nothing is repaired.
pub fn text_of_file_bytes(alloc: Global, file: &[u8]) -> Result<Vec<u8>, StoreFault>
    ensures text { IfOk result (λ text. (lines : List (List ℕ))
        × StandsFor lines file.now × (text.items ≡ text_of lines)) }
    ensures fault { IfErr result (λ fault. (fault ≡ Memory) ⊎ IsRefused file.now fault) }
{
    if file.len() > MOST_FILE_BYTES {
        return Err(StoreFault::TooLong);
    }
    let found = lines_of_file_bytes(alloc, file)?;
    Ok(found.text)
}

/// Keeps only the bytes from `at` on, and gives the memory of the others back.
fn keep_from(bytes: &mut Vec<u8>, at: usize)
    requires { at ≤ length bytes.old.items }
    ensures { bytes.new.items ≡ drop at bytes.old.items }
{
    let len = bytes.len() - at;
    bytes.copy_within(at.., 0);
    bytes.truncate(len);
    bytes.shrink_to_fit();
}

/// Keeps only the bytes from the end of the lines on; all, if the file was never made whole.
fn keep_after_lines(file: &mut Vec<u8>, end: Option<usize>)
    requires { IsEnd file.old.items end }
    ensures { file.new.items ≡ rest_of file.old.items end }
{
    if let Some(end) = end {
        keep_from(file, end);
    }
}

/// The lines of a file that was read from its disk.
#[derive(Drop)]
pub(crate) struct FoundLines {
    pub(crate) lines: FileLines,
    /// The bytes of the file from the end of its lines on; all, if it was never made whole.
    pub(crate) rest: Vec<u8>,
}

/// Syncs the file, and reads it.
pub(crate) fn sync_and_read<D: Disk>(alloc: Global, disk: &mut D) -> Result<FoundLines, StoreFault>
    requires usable { IsTrue (D.Disk.is_usable disk.old) }
    ensures synced { OnOk result (IsSynced D.Disk disk.new) }
    ensures rest { IfOk result (λ found. IsRest D.Disk disk.new found.lines.end found.rest.items) }
    ensures text { IfOk result (λ found. IsTrue (D.Disk.is_clean disk.new)
        → (lines : List (List ℕ)) × StandsFor lines (D.Disk.seen disk.old)
        × (found.lines.text.items ≡ text_of lines)) }
    ensures reads { OnlyReads D.Disk disk.old disk.new result }
    ensures no_other { IfErr result (λ fault. (is_failed_read fault ≡ true)
        ⊎ (is_failed_sync fault ≡ true) ⊎ (is_refused_file fault ≡ true)
        ⊎ (fault ≡ Memory)) }
    ensures usable { IfErr result
        (λ fault. D.Disk.is_usable disk.new ≡ not (is_failed_sync fault)) }
{
    disk.sync().map_err(StoreFault::Sync)?;
    let mut rest = read_file(alloc, disk)?;
    let lines = lines_of_file_bytes(alloc, &rest)?;
    keep_after_lines(&mut rest, lines.end);
    Ok(FoundLines { lines, rest })
}

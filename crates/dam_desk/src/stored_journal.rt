//! The journal in a file, read without a desk.
ghost use Rattle.std.specs.Prelude.{◌≡◌, Option, IfOk, IfErr, IfSome};
ghost use Rattle.std.specs.declared.io.Error.{Error};
ghost use Rattle.dam_store.specs.Faults.{of_io};
ghost use Rattle.dam_desk.specs.Faults.{IsFileFault, of_file};
ghost use Rattle.dam_desk.specs.DeskJournal.{JournalContent, OpensTo, desk_journal_text};

use crate::fault::DeskFault;
use crate::replay::replay_stored_text;
use dam_book::Seed;
use dam_store::{FileFault, MOST_FILE_BYTES, StoreFault, text_of_file_bytes};
use std::alloc::Global;
use std::fs::{self, File};
use std::io::Read;

/// The file at `path`, open for reading, if it isn't too long. It isn't locked or changed.
pub(crate) fn open_to_read(rt: &HostRuntime, path: &str) -> Result<File, DeskFault> {
    let metadata = fs::metadata(rt, path).map_err(FileFault::from)?;
    if !metadata.is_file() {
        return Err(DeskFault::File(FileFault::NotAFile));
    }
    if metadata.len() > MOST_FILE_BYTES as u64 {
        return Err(DeskFault::Store(StoreFault::TooLong));
    }
    Ok(File::open(rt, path).map_err(FileFault::from)?)
}

/// The bytes that a file has left, to its end.
pub(crate) fn read_file_bytes<R: Read>(alloc: Global, file: &mut R) -> Result<Vec<u8>, DeskFault>
    ensures bytes { IfOk result
        (λ bytes. IfSome (R.remaining file.old) (λ left. bytes.items ≡ left)) }
    ensures fault { IfErr result (λ why. (error : Error) × (why ≡ of_file (of_io error))) }
{
    let mut bytes = Vec::new(alloc);
    match file.read_to_end(&mut bytes) {
        Ok(_) => Ok(bytes),
        Err(error) => Err(DeskFault::from(FileFault::from(error))),
    }
}

/// The text of the journal to which a file's bytes open. A file on which no desk is opened has the same fault here.
pub(crate) fn stored_journal_text(
    alloc: Global,
    seed: Seed,
    file: &[u8],
) -> Result<Vec<u8>, DeskFault>
    ensures text { IfOk result (λ text. (journal : Option JournalContent)
        × OpensTo journal file.now × (text.items ≡ desk_journal_text journal)) }
    ensures fault { IfErr result (IsFileFault file.now) }
{
    let text = text_of_file_bytes(alloc, file)?;
    let _replay = replay_stored_text(alloc, seed, text.as_slice())?;
    Ok(text)
}

//! The replay of a stored journal: its day, and the replies to its commands.
ghost use Rattle.std.specs.Prelude.{◌≡◌, ◌≤◌, ℕ, List, IfOk, IfErr};
ghost use Rattle.dam_book.specs.Limits.{most_entries};
ghost use Rattle.dam_book.specs.declared.command.Command.{Command};
ghost use Rattle.dam_desk.specs.Faults.{IsWrittenJournalFault};
ghost use Rattle.dam_desk.specs.inside.DeskDay.{entered_of};
ghost use Rattle.dam_desk.specs.inside.Intake.{IsReplayOf};

use crate::desk_day::DeskDay;
use crate::fault::DeskFault;
use dam_book::laws::runs_grow;
use dam_book::{Command, DayLength, Seed};
use dam_results::{FromJournal, JournalWriter, read_into};
use std::alloc::{AllocError, Global};

/// The day of a journal, which a new file doesn't have yet, and the replies to its commands.
#[derive(Drop)]
pub(crate) struct Replay {
    pub(crate) day: Option<DeskDay>,
    pub(crate) replies: Vec<u8>,
}

/// A day that is read from its journal, the records as a desk writes them, and the replies.
#[derive(Drop)]
struct RecordedReplay {
    day: DeskDay,
    records: JournalWriter,
    replies: Vec<u8>,
}

impl FromJournal for RecordedReplay {
    ghost use Rattle.std.specs.Prelude.{◌≡◌};
    ghost use Rattle.dam_results.specs.Replies.{AreReplies};
    ghost use Rattle.dam_results.specs.Writer.{HasWritten};
    ghost use Rattle.dam_results.specs.Written.{written};
    ghost use Rattle.dam_desk.specs.inside.DeskDay.{IsDayWith};

    type Context = Seed;

    ghost made_of = { λ periods commands replay. IsDayWith replay.day periods commands
        × HasWritten replay.records (written periods commands)
        × AreReplies periods commands replay.replies.items };

    fn begin(alloc: Global, seed: Seed, periods: DayLength) -> Result<RecordedReplay, AllocError> {
        let day = DeskDay::begin(alloc, seed, periods)?;
        let replies = Vec::from_slice(alloc, day.day_answer())?;
        Ok(RecordedReplay {
            day,
            records: JournalWriter::begin(alloc, periods)?,
            replies,
        })
    }

    fn take_command(&mut self, number: u32, command: &Command) -> Result<(), AllocError> {
        runs_grow();
        self.records.write_command(command)?;
        self.day
            .apply_and_append_reply(number, command, &mut self.replies)?;
        Ok(())
    }
}

/// Replays the text of a file's lines. A text of no bytes has no day; any other is a journal as a desk writes it.
pub(crate) fn replay_stored_text(
    alloc: Global,
    seed: Seed,
    text: &[u8],
) -> Result<Replay, DeskFault>
    ensures few { IfOk result (λ replay. entered_of replay.day ≤ most_entries) }
    ensures journal { IfOk result
        (λ replay. IsReplayOf text.now replay.day replay.replies.items) }
    ensures fault { IfErr result (IsWrittenJournalFault text.now) }
{
    if text.is_empty() {
        let replies = Vec::new(alloc);
        return Ok(Replay { day: None, replies });
    }
    let replay: RecordedReplay = read_into(alloc, seed, text)?;
    let records = replay.records.into_text()?;
    if records.as_slice() != text {
        return Err(DeskFault::Respelled);
    }
    Ok(Replay {
        day: Some(replay.day),
        replies: replay.replies,
    })
}

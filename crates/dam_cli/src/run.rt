//! The run of a job of the command line, by its engine.

ghost use Rattle.std.specs.Prelude.{◌≡◌, ◌≤◌, ◌+◌, ◌-◌, false, IfSome};
ghost use Rattle.dam_engines.specs.Device.{AreDevicesAfter, most_asked};
ghost use Rattle.dam_cli.specs.Run.{EndsAs};

use dam_book::Seed;
use dam_engines::{DayPlan, RunFault, Sink, Source, Watch, run_clear, run_day, run_replay};
use dam_line::Job;
use dam_search::FreeTurn;
use std::alloc::Global;
use std::io::{Read, Write};
use std::sync::Wait;
use std::thread::Threads;

/// Runs the engine of the job, under the job's plan, from the reader to the writer. The book hashes names by the seed.
///
/// The requirements of `run_clear` for readers and writers hold here too.
pub fn run_job<H: Threads + Wait + Sync, R: Read, W: Write, T: Watch + Sync>(
    rt: &H,
    alloc: Global,
    seed: Seed,
    job: Job,
    reader: &mut Source<R>,
    writer: &mut Sink<W>,
    watch: &T,
) -> Result<(), RunFault>
    requires reads { reader.old.failed ≡ false }
    requires writes { writer.old.failed ≡ false }
    ensures ends { IfSome reader.old.unread (λ given. EndsAs job given
        writer.old.taken writer.new.taken (writer.new.asked - writer.old.asked) result) }
    ensures devices { AreDevicesAfter reader.old reader.new writer.old writer.new result }
    ensures asked { reader.new.asked ≤ reader.old.asked + most_asked reader.old.unread }
{
    match job {
        Job::Replay => run_replay(alloc, seed, reader, writer),
        Job::Clear(plan) => run_clear(rt, alloc, seed, reader, writer, plan, watch),
        Job::Day(search) => {
            let entrance = &FreeTurn;
            let plan = DayPlan {
                search,
                watch,
                entrance,
            };
            run_day(rt, alloc, seed, reader, writer, &plan)
        }
    }
}

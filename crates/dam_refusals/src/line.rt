//! A command line, read again if memory was refused to it.

use crate::answer::{Answer, Stop, TRIES, Told};
use dam_engines::RunFault;
use dam_line::{Job, LineFault, read_job};
use std::alloc::Global;

fn answer_of(read: &Result<Job, LineFault>) -> Answer {
    match read {
        Ok(job) => Answer::of_job(*job),
        Err(LineFault::Refused { help, .. }) => Answer::Text { help: *help },
        Err(LineFault::Memory) => Answer::Fault(RunFault::Memory),
    }
}

/// Reads the words, and then again, until the answer isn't that memory ran out: the two have to be equal.
pub fn read_job_again(alloc: Global, words: &[String]) -> Result<Told, Stop> {
    let wanted = read_job(alloc, words);
    if wanted == Err(LineFault::Memory) {
        return Err(Stop::Memory);
    }
    for refused in 0..TRIES {
        let found = read_job(alloc, words);
        if found != Err(LineFault::Memory) {
            let answer = answer_of(&found);
            return if found == wanted {
                Ok(Told { answer, refused })
            } else {
                Err(Stop::Wrong)
            };
        }
    }
    Err(Stop::Wrong)
}

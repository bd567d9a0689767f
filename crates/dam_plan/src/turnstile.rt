//! The callbacks round a job's work, through which a caller sees the jobs at work or makes them wait.

/// Callbacks before and after each job's work, on the thread that does it.
///
/// A search calls them round each piece, with the piece's number. A day at a gate calls them round each participant's
/// commands, with the participant's number, by first occurrence among the day's commands. So a caller can see which
/// jobs are at work at the same time, or have one wait for another. They can't change the results of a search; at a
/// gate they can change only the order in which participants' commands come.
pub trait Turnstile {
    /// Called before the work of a job, which begins when the call returns: it may take as long as it likes. Jobs are
    /// numbered from 0.
    fn before(&self, job: u32);

    /// Called after the work of a job, once for each call of `before`, on the same thread.
    fn after(&self, job: u32);
}

/// Lets every job through at once.
#[derive(Clone, Copy, PartialEq, Eq, Debug)]
pub struct FreeTurn;

impl Turnstile for FreeTurn {
    fn before(&self, _job: u32) {}

    fn after(&self, _job: u32) {}
}

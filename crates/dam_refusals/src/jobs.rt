//! A turnstile that counts.

use dam_plan::Turnstile;
use std::sync::atomic::{AtomicU32, Ordering};

/// The numbers of jobs that were begun and that were ended.
#[derive(Drop)]
pub struct Jobs {
    begun: AtomicU32,
    ended: AtomicU32,
}

impl Jobs {
    /// No jobs yet.
    pub fn new() -> Jobs {
        Jobs {
            begun: AtomicU32::new(0),
            ended: AtomicU32::new(0),
        }
    }

    /// The number of jobs that were ended, if as many were begun.
    pub fn count_if_all_ended(&self) -> Option<u32> {
        let ended = self.ended.load(Ordering::SeqCst);
        if self.begun.load(Ordering::SeqCst) == ended {
            Some(ended)
        } else {
            None
        }
    }
}

impl Turnstile for Jobs {
    fn before(&self, _job: u32) {
        self.begun.fetch_add(1, Ordering::SeqCst);
    }

    fn after(&self, _job: u32) {
        self.ended.fetch_add(1, Ordering::SeqCst);
    }
}

//! How long the committer's steps take.
use std::io;
use std::time::{Clock, Instant};

/// Steps that take as long are taken in another thread, in microseconds: twice what it takes to wake a thread that sleeps and to be woken by it.
const LONG_MICROSECONDS: u64 = 100;

/// Whether steps take long, as far as is known.
#[derive(Clone, Copy)]
pub(crate) struct StepTime {
    pub(crate) is_long: bool,
}

impl StepTime {
    /// It is not known yet: they may.
    pub(crate) fn unknown() -> StepTime {
        StepTime { is_long: true }
    }

    /// Some steps began then, and are done.
    pub(crate) fn note<R: Clock>(&mut self, rt: &R, start: io::Result<Instant>) {
        let Ok(start) = start else {
            return;
        };
        if let Ok(time) = start.elapsed(rt) {
            self.is_long = time.as_micros() >= u128::from(LONG_MICROSECONDS);
        }
    }
}

//! For how long nothing has come on a connection.
use std::time::{Duration, Instant};

/// For how long nothing has come on a connection for which nothing waits either.
#[derive(Clone, Copy)]
pub(crate) struct Stillness {
    /// The last look by which something had come or waited, if there was one.
    since: Option<Instant>,
}

impl Stillness {
    /// It has just begun.
    pub(crate) fn new() -> Stillness {
        Stillness { since: None }
    }

    /// Something came since the last look, or something waits.
    pub(crate) fn is_broken(&mut self, now: Option<Instant>) {
        self.since = now;
    }

    /// Whether it lasts so long by now. Without a limit it never does.
    pub(crate) fn lasts(&mut self, now: Instant, limit: Option<Duration>) -> bool {
        let since = match self.since {
            Some(since) => since,
            None => now,
        };
        self.since = Some(since);
        match limit {
            Some(limit) => now.duration_since(since) >= limit,
            None => false,
        }
    }
}

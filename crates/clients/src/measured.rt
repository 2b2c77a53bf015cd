//! How long a connection waits for its replies.

use kv_types::Seen;
use std::time::{Duration, Instant};

/// Half of all numbers of requests: what is less behind another, modulo 2^64, is not behind it.
const HALF: u64 = 1 << 63;

/// How far the requests and the replies of a connection are.
#[derive(Clone, Copy)]
pub(crate) struct Standing {
    /// How many requests were offered so far, modulo 2^64.
    pub(crate) asked: u64,
    /// How many replies were taken so far, modulo 2^64.
    pub(crate) taken: u64,
    /// The greatest position of a reply that was taken.
    pub(crate) last: u64,
}

/// What is measured of the waits of a connection: of one request at a time, from the visit that found it without a reply to the one that found its reply
/// covered by both marks.
#[derive(Clone, Copy)]
pub(crate) enum Measured {
    /// No reply is waited for.
    Nothing,
    /// The reply to the last of so many requests, since then.
    Asked { count: u64, since: Instant },
    /// One that was made by this position, since then.
    Made { position: u64, since: Instant },
}

impl Measured {
    /// Goes on after a visit, which began then. Answers how long the reply was waited for that is covered now, if there is one.
    pub(crate) fn go_on(
        &mut self,
        now: Instant,
        standing: &Standing,
        seen: &Seen,
    ) -> Option<Duration> {
        self.make(standing);
        let waited = self.end(now, seen);
        self.begin(now, standing, seen);
        waited
    }

    /// For how long the reply is waited for by now.
    pub(crate) fn lasts(&self, now: Instant) -> Duration {
        match self {
            Measured::Nothing => Duration::from_secs(0),
            Measured::Asked { since, .. } | Measured::Made { since, .. } => {
                now.duration_since(*since)
            }
        }
    }

    /// Where the reply was taken that is waited for, it is covered where all are that were taken by now.
    fn make(&mut self, standing: &Standing) {
        if let Measured::Asked { count, since } = *self {
            if standing.taken.wrapping_sub(count) < HALF {
                *self = Measured::Made {
                    position: standing.last,
                    since,
                };
            }
        }
    }

    /// Where it is covered, it is waited for no longer.
    fn end(&mut self, now: Instant, seen: &Seen) -> Option<Duration> {
        match *self {
            Measured::Made { position, since } if seen.covers(position) => {
                *self = Measured::Nothing;
                Some(now.duration_since(since))
            }
            _ => None,
        }
    }

    /// Where none is waited for, the reply to the last request is, if it is not covered.
    fn begin(&mut self, now: Instant, standing: &Standing, seen: &Seen) {
        if let Measured::Nothing = *self {
            if standing.asked != standing.taken || !seen.covers(standing.last) {
                *self = Measured::Asked {
                    count: standing.asked,
                    since: now,
                };
            }
        }
    }
}

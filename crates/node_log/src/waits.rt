//! How long the clients of a driver wait for their replies.
ghost use Rattle.std.specs.Prelude.{◌≡◌, ◌+◌, ◌%◌, ◌^◌};

use std::time::{Duration, Instant};

/// The longest wait of the connections of a driver, when its round began, and what nobody can count any more.
#[derive(Clone, Copy)]
pub struct Waits {
    pub now: Option<Instant>,
    longest: Duration,
    /// How many requests came on connections that have ended, since they were counted there last; modulo 2^64.
    pub uncounted: u64,
}

impl Waits {
    /// Nobody has waited yet.
    pub fn none() -> Waits
        ensures { result.uncounted ≡ 0 }
    {
        Waits {
            now: None,
            longest: Duration::from_secs(0),
            uncounted: 0,
        }
    }

    /// Notes that a connection has ended, to which so many requests came since they were counted last.
    pub fn note_end(&mut self, requests: u64)
        ensures { (self.new).uncounted ≡ ((self.old).uncounted + requests) % 2 ^ 64 }
    {
        self.uncounted = self.uncounted.wrapping_add(requests);
    }

    /// Notes that somebody has waited so long.
    pub fn note(&mut self, waited: Duration)
        ensures { (self.new).uncounted ≡ (self.old).uncounted }
    {
        if self.longest < waited {
            self.longest = waited;
        }
    }

    /// Nobody has waited since, in the same round, and all that came is counted.
    pub fn over(self) -> Waits
        ensures { (result.uncounted ≡ 0) × (result.now ≡ self.now) }
    {
        Waits {
            now: self.now,
            longest: Duration::from_secs(0),
            uncounted: 0,
        }
    }

    /// The longest wait, in whole milliseconds.
    pub(crate) fn longest_millis(&self) -> u64 {
        let seconds = self.longest.as_secs().saturating_mul(1_000);
        seconds.saturating_add(self.longest.subsec_millis() as u64)
    }
}

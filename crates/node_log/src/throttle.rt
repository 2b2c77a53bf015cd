//! How often the same thing is told.
ghost use Rattle.std.specs.Prelude.{◌≡◌, min, false, true, IsSome, None};

use std::time::{Clock, Duration, Instant};

/// How long the same thing is not told again at least and at most: doubled each time.
const FIRST_SECONDS: u64 = 1;

const MOST_SECONDS: u64 = 600;

/// Has a thing told at once, and then ever more seldom.
#[derive(Clone, Copy)]
pub struct Throttle {
    /// When it was told last.
    told: Option<Instant>,
    /// How long it is not told again after that.
    seconds: u64,
}

impl Throttle {
    /// Nothing was told yet.
    pub fn new() -> Throttle
        ensures { result.told ≡ None }
    {
        Throttle {
            told: None,
            seconds: FIRST_SECONDS,
        }
    }

    /// Whether it is told now, and if so it was. Without a clock it never is.
    pub fn is_due<C: Clock>(&mut self, clock: &C) -> bool
        ensures rests { result ≡ false → self.new ≡ self.old }
        ensures told { result ≡ true → IsSome self.new.told }
    {
        let Ok(now) = Instant::now(clock) else {
            return false;
        };
        if let Some(told) = self.told {
            if now.duration_since(told) < Duration::from_secs(self.seconds) {
                return false;
            }
            self.seconds = self.seconds.saturating_mul(2).min(MOST_SECONDS);
        }
        self.told = Some(now);
        true
    }
}

//! How many there were a second, now and then.
use std::time::Instant;

/// When it was told last how many there were a second, and how many there had been by then.
#[derive(Clone, Copy)]
pub struct Rate {
    last: Option<Instant>,
    count: u64,
}

impl Rate {
    /// Nothing was told yet.
    pub fn new() -> Rate {
        Rate {
            last: None,
            count: 0,
        }
    }

    /// Looks: there have been so many by now, modulo 2^64. Answers how many there were a second since it was told last, where so many seconds have passed
    /// since, and it is told again.
    pub fn look(&mut self, now: Instant, every: u64, count: u64) -> Option<u64> {
        let Some(last) = self.last else {
            self.last = Some(now);
            self.count = count;
            return None;
        };
        let seconds = now.duration_since(last).as_secs();
        if seconds < every {
            return None;
        }
        let came = count.wrapping_sub(self.count);
        self.last = Some(now);
        self.count = count;
        Some(came / seconds.max(1))
    }
}

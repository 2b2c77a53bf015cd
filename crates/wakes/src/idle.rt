//! How a thread that finds nothing to do waits.
ghost use Rattle.std.specs.Prelude.{◌≡◌, ◌≤◌, ◌+◌, nat_lt, if◌then◌else◌};

use crate::sleeper::Sleeper;
use std::sync::Wait;
use std::thread;
use std::time::Clock;

/// Gives way to other threads a number of times before it sleeps, since a thread that is awake meets new work sooner.
#[derive(Drop)]
pub struct Idle {
    // How often it has given way since it was last busy or asleep.
    turns: u32,
    // How often it gives way before it sleeps.
    most: u32,
    ghost within: { turns ≤ most },
}

impl Idle {
    /// A thread that was just busy, and gives way `most` times before it sleeps.
    pub fn new(most: u32) -> Idle
        ensures turns { result.turns ≡ 0 }
        ensures most { result.most ≡ most }
    {
        Idle { turns: 0, most }
    }

    /// The thread found something to do.
    pub fn busy(&mut self)
        ensures turns { self.new.turns ≡ 0 }
        ensures most { self.new.most ≡ self.old.most }
    {
        self.turns = 0;
    }

    /// The thread found nothing to do: it gives way, or sleeps if it has given way often enough.
    pub fn wait<R: Wait + Clock>(&mut self, rt: &R, sleeper: &Sleeper)
        ensures turns { self.new.turns ≡ (if nat_lt self.old.turns self.old.most then self.old.turns + 1 else 0) }
        ensures most { self.new.most ≡ self.old.most }
    {
        if self.turns < self.most {
            self.turns += 1;
            thread::yield_now();
        } else {
            self.turns = 0;
            sleeper.sleep(rt);
        }
    }
}

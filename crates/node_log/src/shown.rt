//! What a driver shows of its connections to whoever tells of the node.
ghost use Rattle.std.specs.Prelude.{◌≡◌};

use crate::waits::Waits;
use std::sync::atomic::{AtomicBool, AtomicU64, Ordering};

/// What a driver shows of its connections, once a second, as it found it then.
#[derive(Drop)]
pub struct Shown {
    connections: AtomicU64,
    requests: AtomicU64,
    is_waiting: AtomicBool,
    /// In milliseconds.
    longest_wait: AtomicU64,
}

impl Shown {
    /// Of no connection yet.
    pub fn new() -> Shown {
        Shown {
            connections: AtomicU64::new(0),
            requests: AtomicU64::new(0),
            is_waiting: AtomicBool::new(false),
            longest_wait: AtomicU64::new(0),
        }
    }

    /// How many connections there are.
    pub fn connections(&self) -> u64 {
        self.connections.load(Ordering::SeqCst)
    }

    /// How many requests have come since the program was started, up to the driver's last look.
    pub fn requests(&self) -> u64 {
        self.requests.load(Ordering::SeqCst)
    }

    /// Whether a reply waits for a mark.
    pub fn is_waiting(&self) -> bool {
        self.is_waiting.load(Ordering::SeqCst)
    }

    /// How many milliseconds a reply was waited for at most since this was asked last, or is waited for by now.
    pub fn take_longest_wait(&self) -> u64 {
        self.longest_wait.swap(0, Ordering::SeqCst)
    }

    /// Shows what was counted: connections, requests since the last time, whether a reply waits, and for how long one was waited for.
    pub fn show(&self, counted: &Counted) {
        self.connections
            .store(counted.connections, Ordering::SeqCst);
        let requests = self.requests().wrapping_add(counted.requests);
        self.requests.store(requests, Ordering::SeqCst);
        self.is_waiting.store(counted.is_waiting, Ordering::SeqCst);
        let longest = self.longest_wait.load(Ordering::SeqCst);
        let longest = longest.max(counted.waits.longest_millis());
        self.longest_wait.store(longest, Ordering::SeqCst);
    }
}

/// What was counted of the connections of a driver.
#[derive(Clone, Copy)]
pub struct Counted {
    connections: u64,
    requests: u64,
    is_waiting: bool,
    /// The longest wait among them.
    pub waits: Waits,
}

impl Counted {
    /// None was looked at yet. In the visits since the last time there were these waits, and connections ended to which requests had come.
    pub fn nothing(waits: Waits) -> Counted
        ensures { (result.requests ≡ waits.uncounted) × (result.waits ≡ waits) }
    {
        Counted {
            connections: 0,
            requests: waits.uncounted,
            is_waiting: false,
            waits,
        }
    }

    /// Counts one more, to which so many requests came since it was looked at last, and of whose replies one waits or none does.
    pub fn count(&mut self, requests: u64, is_waiting: bool)
        ensures { self.new.waits ≡ self.old.waits }
    {
        self.connections = self.connections.saturating_add(1);
        self.requests = self.requests.saturating_add(requests);
        self.is_waiting |= is_waiting;
    }
}

//! Facts that one thread sets and others see, and those that a connection's driver and the thread that serves tell one another beside its two rings.
ghost use Rattle.std.specs.Prelude.{◌≡◌, vec_len, IfOk};
ghost use Rattle.pipes.specs.declared.limits.TheConstants.{MAX_SEATS};

use pipes::MAX_SEATS;
use std::alloc::{AllocError, Global};
use std::sync::atomic::{AtomicBool, Ordering};

/// A fact that one thread sets and others see.
#[derive(Drop)]
pub struct Flag {
    is_set: AtomicBool,
}

impl Flag {
    /// A flag that is not set.
    pub fn new() -> Flag {
        Flag {
            is_set: AtomicBool::new(false),
        }
    }

    /// Sets it.
    pub fn set(&self) {
        self.is_set.store(true, Ordering::SeqCst);
    }

    /// Clears it. The answer is whether it was set.
    pub fn take(&self) -> bool {
        self.is_set.swap(false, Ordering::SeqCst)
    }

    /// Clears it. The answer is whether it was set. Where it is clear it is only read, which costs less.
    pub(crate) fn take_where_set(&self) -> bool {
        self.is_set() && self.take()
    }

    /// Sets it. The answer is whether it was clear.
    pub(crate) fn set_where_clear(&self) -> bool {
        !self.is_set.swap(true, Ordering::SeqCst)
    }

    /// Whether it is set.
    pub fn is_set(&self) -> bool {
        self.is_set.load(Ordering::SeqCst)
    }
}

/// The flags of one connection.
#[derive(Drop)]
pub struct ConnectionFlags {
    /// Its reader offers no more requests.
    pub is_read: Flag,
    /// The thread that serves it offers no more replies.
    pub is_over: Flag,
    /// Its reader waits for room in the ring of requests.
    pub reader_waits: Flag,
    /// The thread that serves it waits for room in the ring of replies.
    pub server_waits: Flag,
}

impl ConnectionFlags {
    /// The flags of a connection that has just begun: none is set.
    pub fn new() -> ConnectionFlags {
        ConnectionFlags {
            is_read: Flag::new(),
            is_over: Flag::new(),
            reader_waits: Flag::new(),
            server_waits: Flag::new(),
        }
    }
}

/// A flag for each seat, none of them set.
pub(crate) fn flags(alloc: Global) -> Result<Vec<Flag>, AllocError>
    ensures { IfOk result (λ flags. vec_len flags ≡ MAX_SEATS) }
{
    let mut flags = Vec::with_capacity(alloc, MAX_SEATS)?;
    for _ in 0..MAX_SEATS {
        flags.push(Flag::new())?;
    }
    Ok(flags)
}

//! Which of a driver's connections somebody called for, and how the driver is woken.
ghost use Rattle.std.specs.Prelude.{◌≡◌, vec_len, IfOk, IfSome};
ghost use Rattle.pipes.specs.declared.limits.TheConstants.{MAX_SEATS};

use crate::flags::{Flag, flags};
use crate::seat_number::SeatNumber;
use pipes::MAX_SEATS;
use std::alloc::{AllocError, Global};

/// The calls for the connections of one driver, a thread that waits for the readiness of sockets. Each place has a flag, so calling waits for
/// nobody. Whoever calls wakes the driver, by a call of the system only where it sleeps: many calls may be one wake.
#[derive(Drop)]
pub struct Calls {
    // For each place whether somebody called for it.
    is_called: Vec<Flag>,
    // Whether somebody called since the driver looked.
    is_any: Flag,
    // Whether the driver sleeps, or is about to.
    is_asleep: Flag,
    poll: mio::Waker,
    ghost complete: { vec_len is_called ≡ MAX_SEATS },
}

/// Somebody called for the connection at a place. Only `Calls::take` makes one, and it cannot be let go: whoever takes it has to go to that place.
pub struct Called {
    index: usize,
}

impl Called {
    /// The place.
    pub fn index(self) -> usize
        ensures { result ≡ self.index }
    {
        let Called { index } = self;
        index
    }
}

impl Calls {
    /// No calls, for the driver whose poll this waker wakes.
    ///
    /// # Errors
    ///
    /// Only `AllocError`.
    pub fn new(alloc: Global, poll: mio::Waker) -> Result<Calls, AllocError> {
        Ok(Calls {
            is_called: flags(alloc)?,
            is_any: Flag::new(),
            is_asleep: Flag::new(),
            poll,
        })
    }

    /// Calls for the connection at this place. A caller first does what the driver is to find.
    pub fn call(&self, place: SeatNumber) {
        self.is_called[place.index()].set();
        self.wake();
    }

    /// Wakes the driver, to look for new connections too.
    pub fn wake(&self) {
        self.is_any.set();
        if self.is_asleep.take_where_set() {
            // A wake that the system refuses costs at most the second after which the driver looks again.
            let _ = self.poll.wake();
        }
    }

    /// Whether somebody called since this was asked last. The driver asks it before it looks at the places.
    pub fn take_any(&self) -> bool {
        self.is_any.take_where_set()
    }

    /// The call for the connection at this place, if there was one since this was asked last. There is none at 1,024 and above.
    pub fn take(&self, index: usize) -> Option<Called>
        ensures { IfSome result (λ called. called.index ≡ index) }
    {
        match self.is_called.get(index) {
            Some(flag) if flag.take_where_set() => Some(Called { index }),
            _ => None,
        }
    }

    /// The driver is about to sleep. The answer is whether it may: nobody called since it looked. Whoever calls later finds that it sleeps.
    pub fn may_sleep(&self) -> bool {
        self.is_asleep.set();
        !self.is_any.is_set()
    }

    /// The driver is awake.
    pub fn is_awake(&self) {
        self.is_asleep.take_where_set();
    }
}

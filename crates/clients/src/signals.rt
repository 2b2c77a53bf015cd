//! What the driver of a connection and the thread that serves signal to one another.
ghost use Rattle.std.specs.Prelude.{◌≡◌, true};

use std::sync::{Arc, Wait};
use wakes::{ConnectionFlags, ReadyList, SeatNumber};

/// How the driver of a connection calls the thread that serves, and what the two tell one another.
#[derive(Drop)]
pub struct Signals {
    pub(crate) flags: Arc<ConnectionFlags>,
    pub(crate) ready: Arc<ReadyList>,
    pub(crate) seat: SeatNumber,
}

impl Signals {
    /// Calls the thread that serves to this connection.
    pub fn call<R: Wait>(&self, rt: &R) {
        self.ready.add(rt, self.seat);
    }

    /// Whether the thread that serves has left this connection: it takes no more requests and makes no more replies.
    pub fn is_over(&self) -> bool {
        self.flags.is_over.is_set()
    }

    /// The same, as what takes replies is to be given it.
    pub fn was_over(&self) -> WasOver {
        WasOver {
            is_over: self.is_over(),
        }
    }

    /// Asks whether it has, and says so only then.
    pub(crate) fn has_left(&self) -> Option<HasLeft> {
        let was = self.was_over();
        if was.is_over() {
            Some(HasLeft { was })
        } else {
            None
        }
    }

    /// Says that the reader offers nothing more.
    pub(crate) fn end_reading<R: Wait>(&self, rt: &R) {
        self.flags.is_read.set();
        self.call(rt);
    }

    /// Says that the reader waits for room. The thread that serves calls the driver after the next item that it takes.
    pub(crate) fn wait_for_room(&self) {
        self.flags.reader_waits.set();
    }

    /// Calls the thread that serves, if it waits for room in the ring of replies.
    pub(crate) fn made_room<R: Wait>(&self, rt: &R) {
        if self.flags.server_waits.take() {
            self.call(rt);
        }
    }
}

/// Whether the thread that serves had left a connection before replies were taken: all that it made could then be taken. Only `Signals::was_over` makes one, so
/// what is given one cannot ask too late.
#[derive(Clone, Copy, Debug, PartialEq, Eq)]
pub struct WasOver {
    is_over: bool,
}

impl WasOver {
    /// Whether it had.
    pub fn is_over(&self) -> bool
        ensures { result ≡ self.now.is_over }
    {
        self.is_over
    }
}

/// The thread that serves has left a connection. Nobody can say so who has not asked, and found it so.
#[derive(Clone, Copy, Debug, PartialEq, Eq)]
pub struct HasLeft {
    was: WasOver,
    ghost found: { was.is_over ≡ true },
}

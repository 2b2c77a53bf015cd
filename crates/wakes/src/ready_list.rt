//! The seats that have something to do.
ghost use Rattle.std.specs.Prelude.{◌≡◌, vec_len, IfOk};
ghost use Rattle.pipes.specs.declared.limits.TheConstants.{MAX_SEATS};

use crate::flags::{Flag, flags};
use crate::seat_number::SeatNumber;
use crate::waker::Waker;
use crossbeam_queue::ArrayQueue;
use pipes::MAX_SEATS;
use std::alloc::{AllocError, Global};
use std::sync::Wait;

/// What a `ReadyList` answered: the seat that has waited longest, or that none is listed. Only `ReadyList::next` makes one, and it cannot be let go: whoever
/// takes it has to ask for its seat.
pub struct NextReady {
    seat: Option<SeatNumber>,
}

impl NextReady {
    /// The number of the seat, if one was listed.
    pub fn seat(self) -> Option<SeatNumber>
        ensures { result ≡ self.seat }
    {
        let NextReady { seat } = self;
        seat
    }

    /// The same, of one that is still to be asked for its seat.
    pub fn peek(&self) -> Option<SeatNumber>
        ensures { result ≡ self.now.seat }
    {
        self.seat
    }
}

/// The seats whose connections have something for the thread that serves, the one that has waited longest first. Each seat is in the list
/// at most once, so that connections with nothing to do cost a busy one nothing.
#[derive(Drop)]
pub struct ReadyList {
    numbers: ArrayQueue<SeatNumber>,
    // For each seat whether its number is in the list.
    is_listed: Vec<Flag>,
    server: Waker,
    ghost complete: { vec_len is_listed ≡ MAX_SEATS },
}

impl ReadyList {
    /// An empty list for the thread that this waker wakes. It allocates all the memory that it will ever need.
    ///
    /// # Errors
    ///
    /// Only `AllocError`.
    pub fn new(alloc: Global, server: Waker) -> Result<ReadyList, AllocError>
        ensures wakes { IfOk result (λ list. list.server ≡ server) }
    {
        let numbers = ArrayQueue::new(alloc, MAX_SEATS)?;
        let is_listed = flags(alloc)?;
        Ok(ReadyList {
            numbers,
            is_listed,
            server,
        })
    }

    /// Puts the seat last and wakes the thread that serves, unless the seat is in the list already. A caller first offers what there is to do.
    pub fn add<R: Wait>(&self, rt: &R, number: SeatNumber) {
        let index = number.index();
        if !self.is_listed[index].set_where_clear() {
            return;
        }
        // Each seat is in the list at most once, so there is room. If there were none, the next `add` of this seat would try again.
        if self.numbers.push(rt, number).is_err() {
            self.is_listed[index].take();
        }
        self.server.wake();
    }

    /// Takes out the number of the seat that has waited longest. From then on, and so before the caller looks what there is to do for it, the
    /// seat can be added again. So what comes too late for that look puts the seat back into the list.
    pub fn next<R: Wait>(&self, rt: &R) -> NextReady {
        let seat = self.numbers.pop(rt);
        if let Some(number) = &seat {
            self.is_listed[number.index()].take();
        }
        NextReady { seat }
    }

    /// Wakes the thread that serves.
    pub fn wake(&self) {
        self.server.wake();
    }
}

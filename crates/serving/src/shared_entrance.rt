//! Where connections get their seats, and wait until the node's thread takes them in.
ghost use Rattle.std.specs.Prelude.{◌≡◌};
ghost use Rattle.serving.specs.Callers.{answer_of, seat_of};

use clients::{ReplyQueue, RequestQueue};
use lobby::{Arrival, Entrance};
use pipes::Seat;
use std::sync::{Arc, Mutex, Wait};
use wakes::SeatNumber;

/// Where connections get their seats, and wait until the node's thread takes them in.
pub type SharedEntrance = Mutex<Entrance<RequestQueue, ReplyQueue>>;

/// A seat, if one is free.
pub(crate) fn enter<R: Wait>(rt: &R, entrance: &Arc<SharedEntrance>) -> Option<Seat> {
    entrance.lock(rt).enter().ok()
}

/// Gives a seat back.
pub(crate) fn leave<R: Wait>(rt: &R, entrance: &Arc<SharedEntrance>, seat: Seat) {
    entrance.lock(rt).leave(seat);
}

/// Lets a connection wait.
pub(crate) fn arrive<R: Wait>(
    rt: &R,
    entrance: &Arc<SharedEntrance>,
    arrival: Arrival<RequestQueue, ReplyQueue>,
) {
    drop(entrance.lock(rt).arrive(arrival));
}

/// What the entrance answered: the connection that has waited longest, or that none waits. Only `next_arrival` makes one, and it cannot be let go: whoever takes
/// it has to take the connection.
pub(crate) struct NextArrival {
    arrival: Option<Arrival<RequestQueue, ReplyQueue>>,
}

impl NextArrival {
    /// The connection, if one waited.
    pub(crate) fn arrival(self) -> Option<Arrival<RequestQueue, ReplyQueue>>
        ensures { result ≡ self.arrival }
    {
        let NextArrival { arrival } = self;
        arrival
    }

    /// The number of its seat.
    pub(crate) fn seat(&self) -> Option<SeatNumber>
        ensures { answer_of result ≡ seat_of self.now.arrival }
    {
        match &self.arrival {
            Some(arrival) => Some(SeatNumber::of(&arrival.seat)),
            None => None,
        }
    }
}

/// Asks for the connection that has waited longest.
pub(crate) fn next_arrival<R: Wait>(rt: &R, entrance: &Arc<SharedEntrance>) -> NextArrival {
    NextArrival {
        arrival: entrance.lock(rt).waiting(),
    }
}

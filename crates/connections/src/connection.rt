//! A connection of a client.
ghost use Rattle.std.specs.Prelude.{◌≡◌, None};
ghost use Rattle.connections.specs.Session.{seat_of};

use crate::asking::Asking;
use crate::outbound::Outbound;
use pipes::Seat;

/// A connection. It has a seat while it is open.
#[derive(Drop)]
pub(crate) enum Connection {
    /// It is open.
    Open(Client),
    /// It is over.
    Over,
}

/// An open connection's seat, and its parts before and after the sequencer.
#[derive(Drop)]
pub(crate) struct Client {
    pub(crate) seat: Seat,
    pub(crate) inbound: Asking,
    pub(crate) outbound: Outbound,
}

impl Connection {
    /// Ends the connection, and hands out its seat if it was open. All that waits at it is dropped.
    pub(crate) fn leave(&mut self) -> Option<Seat>
        ensures seat { result ≡ seat_of self.old }
        ensures over { seat_of self.new ≡ None }
    {
        match std::mem::replace(self, Connection::Over) {
            Connection::Open(
                Client {
                    seat,
                    inbound: _inbound,
                    outbound: _outbound,
                },
            ) => Some(seat),
            Connection::Over => None,
        }
    }
}

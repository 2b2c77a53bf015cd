//! A connection that has arrived.
use pipes::Seat;

/// A connection that waits to be served: its seat, and the two pipe ends at which it is served.
#[derive(Debug, Drop)]
pub struct Arrival<I, O> {
    /// The connection's seat.
    pub seat: Seat,
    /// The end at which its requests come out.
    pub requests: I,
    /// The end at which the replies to them go in.
    pub replies: O,
}

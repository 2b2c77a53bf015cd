//! The connections that are open, each at the place of its seat's number.
ghost use Rattle.std.specs.Prelude.{◌≡◌, Some, None, IfOk, IfSome};
ghost use Rattle.serving.specs.Places.{AreInPlace, PutsAt, connection_at, is_again};

use crate::open_connection::OpenConnection;
use pipes::MAX_SEATS;
use std::alloc::{AllocError, Global};
use wakes::SeatNumber;

/// The connections that are open, each at the place of its seat's number: 1,024 places.
#[derive(Drop)]
pub(crate) struct Places {
    connections: Vec<Option<OpenConnection>>,
    ghost in_place: { AreInPlace connections.items },
}

impl Places {
    /// No connection is open.
    ///
    /// # Errors
    ///
    /// Only `AllocError`.
    pub(crate) fn new(alloc: Global) -> Result<Places, AllocError> {
        let mut connections = Vec::with_capacity(alloc, MAX_SEATS)?;
        for _ in 0..MAX_SEATS {
            connections.push(None)?;
        }
        Ok(Places { connections })
    }

    /// Takes the connection of a seat out of its place, to be served.
    pub(crate) fn lift(&mut self, number: SeatNumber) -> Option<OpenConnection>
        ensures lifted { result ≡ connection_at self.old.connections.items number.number }
        ensures seat { IfSome result (λ connection. connection.arrival.seat ≡ number.number) }
        ensures rest { PutsAt number.number None self.old.connections.items self.new.connections.items }
    {
        match self.connections.get_mut(number.index()) {
            Some(place) => place.take(),
            None => None,
        }
    }

    /// Puts a connection at its place.
    pub(crate) fn put(&mut self, connection: OpenConnection)
        ensures { PutsAt connection.arrival.seat (Some connection) self.old.connections.items self.new.connections.items }
    {
        match self.connections.get_mut(connection.number().index()) {
            Some(place) => drop(place.replace(connection)),
            None => drop(connection),
        }
    }

    /// Whether the connection of a seat is served again in the next round.
    pub(crate) fn is_again(&self, number: SeatNumber) -> bool
        ensures { result ≡ is_again (connection_at self.now.connections.items number.number) }
    {
        match self.connections.get(number.index()) {
            Some(Some(connection)) => connection.is_again,
            _ => false,
        }
    }
}

//! A thread that drives connections.
use crate::driven_connections::DrivenConnections;
use crate::intake::DriverEntrance;
use crate::room::SharedRoom;
use kv_types::Refusal;
use marks::ThreadMarks;
use mio::{Poll, Token, Waker};
use node_log::Shown;
use pipes::MAX_SEATS;
use std::alloc::Global;
use std::net::Net;
use std::sync::{Arc, Wait};
use std::time::{Clock, Duration};
use wakes::Calls;

/// Names the driver's own waker in the poll, beside the places of connections.
const WAKER: Token = Token(MAX_SEATS);

/// Drives connections by the readiness of their sockets: it reads their requests and writes their replies, and blocks only where none of them can go
/// on, in the poll of the system.
#[derive(Drop)]
pub struct Driver {
    connections: DrivenConnections,
    marks: ThreadMarks,
}

impl Driver {
    /// A driver without connections, and its entrance. It has as many at once as there is room for, which other drivers may take from too. Once a second it
    /// shows what there is. Where a time is given, a connection on which nothing came for as long, and for which nothing waits, is closed.
    ///
    /// # Errors
    ///
    /// `Memory`, also where the system refuses a descriptor.
    pub fn new<R: Net>(
        rt: &R,
        alloc: Global,
        marks: ThreadMarks,
        idle: Option<Duration>,
        shown: Arc<Shown>,
        room: Arc<SharedRoom>,
    ) -> Result<(Driver, DriverEntrance), Refusal> {
        let Ok(poll) = Poll::new(rt) else {
            return Err(Refusal::Memory);
        };
        let Ok(waker) = Waker::new(poll.registry(), WAKER) else {
            return Err(Refusal::Memory);
        };
        let calls = Arc::new(alloc, Calls::new(alloc, waker)?)?;
        let entrance = DriverEntrance::new(alloc, calls, room)?;
        let connections = DrivenConnections::new(alloc, poll, entrance.another()?, idle, shown)?;
        Ok((Driver { connections, marks }, entrance))
    }

    /// Drives for ever.
    pub fn run<R: Wait + Clock>(self, rt: &R) {
        let Driver {
            mut connections,
            mut marks,
        } = self;
        for _ in rt.forever() {
            connections.wait(rt);
            connections.take_round(rt, &mut marks);
        }
    }
}

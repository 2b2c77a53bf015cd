//! What the thread that serves has of a connection: its end of each of the two rings.
use crate::look_ahead::LookAhead;
use kv_types::{Held, Item};
use pipes::{RingInlet, RingOutlet};
use std::sync::Arc;
use wakes::{ConnectionFlags, SeatWaker};

/// Where a connection's requests come out.
#[derive(Drop)]
pub struct RequestQueue {
    /// The items that the connection's bytes ask for, the next of which can be looked at.
    pub items: LookAhead<Item, RingInlet<Item>>,
    /// Calls the driver to the connection: after items were taken, where `flags.reader_waits` was set.
    pub reader: SeatWaker,
    /// What the driver and the thread that serves tell one another.
    pub flags: Arc<ConnectionFlags>,
}

/// Where the replies to them go in.
#[derive(Drop)]
pub struct ReplyQueue {
    /// The replies, with the positions at which they were made.
    pub replies: RingOutlet<Held>,
    /// Calls the driver to the connection: once replies can go out, where the ring is full, and when `flags.is_over` was set.
    pub writer: SeatWaker,
}

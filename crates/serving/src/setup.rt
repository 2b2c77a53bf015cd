//! What an operator may ask of a primary.
use node_log::{Capacity, Log};
use pipes::MAX_SEATS;
use std::time::Duration;

/// What a primary tells and where, and what its clients may take.
#[derive(Drop)]
pub struct Setup<W> {
    /// The number of the pair to which the node belongs, or 0 where its image has none. With another pair's standby it does not link.
    pub pair: u64,
    /// Where it is told what becomes of the link.
    pub link: Log<W>,
    /// What is told of the node while it runs, if anything is.
    pub watch: Option<Watch<W>>,
    /// What its clients may take.
    pub clients: ClientLimits,
}

/// What the clients of a primary may take.
#[derive(Clone, Copy)]
pub struct ClientLimits {
    /// For how many of their sockets there is room, so that descriptors are left for all else that the node opens.
    pub sockets: usize,
    /// How long nothing may come on a connection for which nothing waits, before it is closed. Without it any time.
    pub idle: Option<Duration>,
}

/// What is told of a node while it runs: how long replies wait for the standby, of an image that fills, and how far both nodes are.
#[derive(Drop)]
pub struct Watch<W> {
    /// Where it is told.
    pub log: Log<W>,
    /// How often it is told how far both nodes are, in seconds, if it is.
    pub report_seconds: Option<u64>,
    /// For how much the node's image has room.
    pub capacity: Capacity,
}

impl<W> Setup<W> {
    /// Of a node whose image has no number of a pair. Only what becomes of the link is told, there is room for as many sockets as seats, and no connection is closed.
    pub fn quiet(link: Log<W>) -> Setup<W> {
        Setup {
            pair: 0,
            link,
            watch: None,
            clients: ClientLimits {
                sockets: MAX_SEATS,
                idle: None,
            },
        }
    }
}

//! What the thread of a link's sender stands on.
use crate::link_flags::LinkFlags;
use crate::sending::Surroundings;
use std::sync::Arc;
use wakes::{Sleeper, Waker};

/// What the thread of a link's sender stands on.
#[derive(Drop)]
pub struct SenderThread {
    /// Where it sleeps.
    pub sleeper: Sleeper,
    /// Wakes the node's thread, which waits for room in the ring of groups, and gives copies.
    pub node: Waker,
    /// What the receiver tells of the connection.
    pub flags: Arc<LinkFlags>,
    /// How often it gives way before it sleeps.
    pub spin: u32,
}

impl SenderThread {
    /// The same, lent to what sends.
    pub(crate) fn around(&self) -> Surroundings<'_> {
        Surroundings {
            flags: &self.flags,
            sleeper: &self.sleeper,
            node: &self.node,
            spin: self.spin,
        }
    }
}

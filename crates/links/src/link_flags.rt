//! What the two threads of a primary's link tell each other of one connection.
use wakes::Flag;

/// The flags of a connection, both set by the receiver.
#[derive(Drop)]
pub struct LinkFlags {
    /// The connection brings nothing more.
    pub is_broken: Flag,
    /// An acknowledgement was taken on it, behind its first message.
    pub has_acked: Flag,
}

impl LinkFlags {
    /// None is set.
    pub fn new() -> LinkFlags {
        LinkFlags {
            is_broken: Flag::new(),
            has_acked: Flag::new(),
        }
    }

    /// Clears both, before a connection is served.
    pub(crate) fn clear(&self) {
        self.is_broken.take();
        self.has_acked.take();
    }
}

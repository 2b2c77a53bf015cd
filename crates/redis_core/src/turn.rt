//! The result of a turn of the sequencer.

/// The result of a turn. Every result but `Served` takes no item and changes nothing.
#[derive(Clone, Copy, Debug, PartialEq, Eq)]
pub enum Turn {
    /// One item was taken and answered, and its reply waits in the outlet.
    Served,
    /// There was no item.
    Idle,
    /// There was no known room for a reply.
    Blocked,
    /// As many changing commands wait for a group as a group may hold.
    GroupFull,
    /// No connection is open at this seat: a protocol fault or a request to quit was answered there, or it has left.
    Ended,
}

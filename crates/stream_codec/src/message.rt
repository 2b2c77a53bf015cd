//! What the two nodes tell each other.
use frames::{Ack, CopyEnd, CopyPart, CopyWanted, Frame};

/// The most bytes that the changes of one group have together.
pub const MAX_BODY_BYTES: u64 = 1 << 40;

/// The most bytes that the puts of one part of a copy have together. The longest put has 1,049,609.
pub const MAX_PART_BYTES: u64 = 1 << 21;

/// The fewest bytes that a put has: of a string with an empty key and an empty value.
pub const LEAST_PUT_BYTES: u64 = 1 + 2 + 4;

/// What one node tells the other.
#[derive(Debug, Drop)]
pub enum Message {
    Group(Frame),
    /// From the standby: what is durable on it.
    Ack(Ack),
    /// From a newcomer: it wants a copy of all records.
    CopyWanted(CopyWanted),
    /// To a newcomer: some of the records.
    CopyPart(CopyPart),
    /// To a newcomer: it has all parts.
    CopyEnd(CopyEnd),
}

/// The numbers of a group's frame: all of it but its changes.
#[derive(Clone, Copy, Debug, PartialEq, Eq)]
pub struct GroupHead {
    pub epoch: u64,
    /// The position before the changes.
    pub before: u64,
    /// The position after them.
    pub after: u64,
    /// How many bytes the changes have together.
    pub size: u64,
}

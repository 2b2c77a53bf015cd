//! A copy of all records, from the primary to a newcomer, in parts.
use kv_types::{RecordId, Value};

/// A newcomer's word to the primary of its epoch that it wants a copy of all records. It is the first frame of its connection.
#[derive(Clone, Copy, Debug, PartialEq, Eq)]
pub struct CopyWanted {
    pub epoch: u64,
}

/// A part of a copy: some of the records as they were at a position. All parts of a copy have each record once, in order.
#[derive(Debug, Drop)]
pub struct CopyPart {
    pub epoch: u64,
    /// The position that the copy is of.
    pub position: u64,
    /// Which part of the copy it is, from 0.
    pub number: u64,
    pub puts: Vec<(RecordId, Value)>,
}

/// The end of a copy: with so many parts the newcomer has all records as they were at the position, and becomes a standby.
#[derive(Clone, Copy, Debug, PartialEq, Eq)]
pub struct CopyEnd {
    pub epoch: u64,
    /// The position that the copy is of.
    pub position: u64,
    /// How many parts the copy has.
    pub parts: u64,
}

//! A group of commands that commits under one record, with the place of each new version.
use kv_types::{EntryNo, Extent, Key, RecordId, Value};

/// The most commands in a group.
pub const MAX_PARTS: usize = 64;

/// A write of a record, and the place that holds it.
#[derive(Debug, Drop)]
pub struct Put {
    pub id: RecordId,
    pub value: Value,
    pub entry: EntryNo,
    pub extent: Extent,
}

/// A change, each put with its place.
#[derive(Debug, Drop)]
pub enum PlacedChange {
    Put(Put),
    Drop(RecordId),
    DropKey(Key),
    Clear,
}

/// What one changing command did; on a standby, what one frame did.
#[derive(Debug, Drop)]
pub struct Part {
    /// The position of the list after it.
    pub position: u64,
    pub changes: Vec<PlacedChange>,
    /// The entries of the versions that it ended, each once.
    pub ended: Vec<EntryNo>,
}

/// Commands that commit together, 1 to 64 of them; on a standby, one frame.
#[derive(Debug, Drop)]
pub struct Group {
    /// Which primary of the pair committed it first, from 1.
    pub epoch: u64,
    /// The position of the list before it.
    pub before: u64,
    /// In the order of the list.
    pub parts: Vec<Part>,
}

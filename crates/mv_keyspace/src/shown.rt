//! What is shown of a record.
use kv_types::{EntryNo, Value};

/// What a record held at a position of the list.
#[derive(Debug, Clone, Copy)]
pub struct Shown<'a> {
    pub value: &'a Value,
    /// The directory entry that holds its version.
    pub entry: EntryNo,
    /// The position of the list at which it was put.
    pub position: u64,
}

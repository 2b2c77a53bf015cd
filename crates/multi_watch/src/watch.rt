//! A watched key.

use kv_types::Key;

/// A key that a connection watches, as a clause sees it.
#[derive(Debug, Drop)]
pub struct Watch {
    pub key: Key,
    /// A call has modified the key since it was watched.
    pub is_modified: bool,
}

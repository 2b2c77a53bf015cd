//! One entry of the list of calls.
use kv_types::{Item, Reply};

/// The longest change text of one call, in bytes.
pub const MAX_CHANGE_TEXT_BYTES: usize = 16_777_216;

/// One call: what a connection asked, and what it was answered.
#[derive(Debug, Drop)]
pub struct Call {
    /// The connection's number: connections count from 0, in the order in which they entered.
    pub connection: u64,
    pub item: Item,
    pub reply: Reply,
}

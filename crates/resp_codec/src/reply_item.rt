//! What the bytes of a server hold: replies, and at most one fault after them.
use kv_types::Reply;

/// One thing in a server's bytes.
#[derive(Debug, Drop)]
pub enum ReplyItem {
    Reply(Reply),
    /// No further bytes can make the bytes here a reply.
    Fault,
}

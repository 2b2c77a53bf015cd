//! Replies, and a reply with the position at which it was made.
use crate::listed::Listed;
use crate::payload::Payload;
use bytes::Bytes;
use std::alloc::AllocError;

/// A reply to one request.
#[derive(Debug, Drop)]
pub enum Reply {
    /// A simple string: its text, without line ends.
    Simple(Bytes),
    /// An error: its text, without line ends.
    Error(Bytes),
    /// An integer.
    Int(i64),
    /// A bulk string of any bytes.
    Bulk(Payload),
    /// No value.
    NullBulk,
    /// An array of replies.
    Array(Listed<Reply>),
    /// No array.
    NullArray,
}

impl Clone for Reply {
    ghost use Rattle.std.specs.Prelude.{◌≡◌};

    ghost is_clone = { λ reply copy. copy ≡ reply };

    fn clone(&self) -> Result<Reply, AllocError> {
        Ok(match self {
            Reply::Simple(text) => Reply::Simple(text.clone()?),
            Reply::Error(text) => Reply::Error(text.clone()?),
            Reply::Int(number) => Reply::Int(*number),
            Reply::Bulk(bytes) => Reply::Bulk(bytes.clone()?),
            Reply::NullBulk => Reply::NullBulk,
            Reply::Array(replies) => {
                let mut copies = Listed::new(replies.allocator());
                for reply in replies.as_slice() {
                    copies.push(reply.clone()?)?;
                }
                Reply::Array(copies)
            }
            Reply::NullArray => Reply::NullArray,
        })
    }
}

/// A reply that waits until it is covered, with the position in the list of calls at which it was made.
#[derive(Debug, Drop)]
pub struct Held {
    pub reply: Reply,
    pub position: u64,
}

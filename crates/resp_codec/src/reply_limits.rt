//! How long a reply may be that is read.

/// How long a reply may be, and how deep.
#[derive(Clone, Copy, Debug, PartialEq, Eq)]
pub struct ReplyLimits {
    /// How many arrays a reply may stand within; an array within that many is empty.
    pub depth: u64,
    /// The most replies in an array.
    pub elements: u64,
    /// The longest bulk string, in bytes.
    pub bulk_bytes: u64,
}

/// The limits of the replies that are read. Elements and bytes are those of Redis and its client library unless they are told otherwise;
/// this server nests arrays at most two deep.
pub const REPLY_LIMITS: ReplyLimits = ReplyLimits {
    depth: 8,
    elements: 4_294_967_295,
    bulk_bytes: 536_870_912,
};

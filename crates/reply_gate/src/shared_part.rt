//! A value that stands in a text without being copied into it.
use bytes::Bytes;

/// A shared value, and how many bytes of text stand between the value before it and this one.
#[derive(Drop)]
pub(crate) struct SharedPart {
    pub(crate) lead: usize,
    pub(crate) bytes: Bytes,
}

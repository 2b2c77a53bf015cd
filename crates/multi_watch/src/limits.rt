//! The limit of a transaction.

/// How many requests may wait in a transaction.
pub const MAX_QUEUED_REQUESTS: usize = 256;

//! What is wrong with a line of the events.
use std::alloc::{AllocError, AllocFailed};
use thiserror::Error;

/// What is wrong with a line.
#[derive(Clone, Copy, Debug, PartialEq, Eq, Error)]
pub enum Cause {
    #[error("unknown event")]
    UnknownEvent,
    #[error("a word is missing")]
    MissingWord,
    #[error("a word too many")]
    NeedlessWord,
    #[error("not a decimal number below 2^64")]
    NotNumber,
    #[error("not an even number of hex digits")]
    NotHex,
    #[error("the mark is neither local nor remote")]
    NotMark,
    #[error("the node is neither primary nor standby")]
    NotNode,
    #[error("fail after the first event")]
    FailAfterEvent,
    #[error("no image of this node was kept")]
    NothingKept,
    #[error("a word behind the restore")]
    BehindRestore,
    #[error("more than 16777216 events")]
    TooManyEvents,
}

/// Why a line was not taken.
#[derive(Clone, Copy, Debug, PartialEq, Eq)]
pub enum LineError {
    /// Memory was refused.
    Memory,
    /// The line is not understood.
    Bad(Cause),
}

impl From<Cause> for LineError {
    fn from(cause: Cause) -> LineError {
        LineError::Bad(cause)
    }
}

impl From<AllocError> for LineError {
    fn from(_e: AllocError) -> LineError {
        LineError::Memory
    }
}

impl<T: Drop> From<AllocFailed<T>> for LineError {
    fn from(_e: AllocFailed<T>) -> LineError {
        LineError::Memory
    }
}

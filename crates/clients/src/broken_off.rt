//! Why a reader broke off.
use crate::signals::HasLeft;
use kv_types::Refusal;
use std::alloc::AllocError;
use std::io;

/// Why a connection is no longer read, though neither its peer has closed it nor one of its items.
#[derive(Clone, Copy, Debug, PartialEq, Eq)]
pub enum BrokenOff {
    /// Memory was refused.
    Memory,
    /// A read failed.
    Socket,
    /// An item waits for room, and nobody takes its requests any more.
    Over(HasLeft),
}

impl From<AllocError> for BrokenOff {
    fn from(_error: AllocError) -> BrokenOff {
        BrokenOff::Memory
    }
}

impl From<Refusal> for BrokenOff {
    // A parser refuses only for want of memory.
    fn from(_refusal: Refusal) -> BrokenOff {
        BrokenOff::Memory
    }
}

impl From<io::Error> for BrokenOff {
    fn from(_error: io::Error) -> BrokenOff {
        BrokenOff::Socket
    }
}

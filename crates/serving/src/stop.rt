//! Why a primary serves no longer.
use kv_types::Refusal;

/// Why a primary serves no longer.
#[derive(Clone, Copy, Debug, PartialEq, Eq)]
pub enum Stop {
    /// A step was refused so, or memory was to begin with.
    Refused(Refusal),
    /// Its listener takes no further connection.
    ListenerClosed,
}

//! Why a standby takes no further link.
use kv_types::Refusal;

/// Why a standby takes no further link.
#[derive(Clone, Copy, Debug, PartialEq, Eq)]
pub enum Left {
    /// The node can take no further frame.
    Stopped(Refusal),
    /// It belongs to no pair yet, and takes over this number, which its primary greeted it with: that is to be written into its image. It has taken a frame of
    /// that primary. It is sound.
    Adopts(u64),
}

//! Why a link ended, on the standby's side.
ghost use Rattle.std.specs.Prelude.{◌≡◌};

use kv_types::Refusal;
use std::alloc::AllocError;

/// Why a standby's link ended that the primary did not close.
#[derive(Clone, Copy, Debug, PartialEq, Eq)]
pub enum LinkError {
    /// A read or a write failed.
    Closed,
    /// The link alone has ended: the node is sound, and may take the next link.
    Refused(Refusal),
    /// The node can take no further frame: its device failed, or its counters have come to their end.
    Stops(Refusal),
}

impl From<AllocError> for LinkError {
    ghost use Rattle.kv_types.specs.declared.refusal.Refusal.TheVariants.{Memory};
    ghost use Rattle.node_log.specs.declared.link_error.LinkError.TheVariants.{Refused};

    ghost from_gives = { λ _ end. end ≡ Refused Memory };

    fn from(_e: AllocError) -> LinkError {
        LinkError::Refused(Refusal::Memory)
    }
}

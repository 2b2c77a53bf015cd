//! A copy that a newcomer at the link's address asks for.
ghost use Rattle.std.specs.Prelude.{◌≡◌, ◌↔◌, IsTrue};
ghost use Rattle.standby_stream.specs.Copying.{ended_at, goes_aside};
ghost use Rattle.standby_stream.specs.declared.copying.Copying.TheVariants as stages;

/// Whether a link's standby follows, or a newcomer waits for its copy.
#[derive(Debug, Clone, Copy, PartialEq, Eq)]
pub enum Copying {
    /// A standby follows: groups are sent to it.
    Follows,
    /// A newcomer has asked for a copy, and none is pinned yet.
    Awaited,
    /// The copy of the keyspace at this position is sent.
    Sending(u64),
}

impl Copying {
    /// Whether a standby follows.
    pub fn follows(self) -> bool
        ensures { IsTrue result ↔ (self ≡ stages.Follows) }
    {
        match self {
            Copying::Follows => true,
            Copying::Awaited | Copying::Sending(_) => false,
        }
    }

    /// Whether a copy is awaited that is not pinned yet.
    pub fn is_awaited(self) -> bool
        ensures { IsTrue result ↔ (self ≡ stages.Awaited) }
    {
        match self {
            Copying::Awaited => true,
            Copying::Follows | Copying::Sending(_) => false,
        }
    }

    /// Whether the changes of a group that ends at this position are of the copy, or will be.
    pub(crate) fn holds(self, after: u64) -> bool
        ensures { result ≡ goes_aside self after }
    {
        match self {
            Copying::Follows => false,
            Copying::Awaited => true,
            Copying::Sending(pinned) => after <= pinned,
        }
    }

    /// What becomes of it by an acknowledgement at this position: at the pinned one or above the copy is over.
    pub(crate) fn acknowledged(self, position: u64) -> Copying
        ensures { result ≡ ended_at position self }
    {
        match self {
            Copying::Follows => Copying::Follows,
            Copying::Awaited => Copying::Awaited,
            Copying::Sending(pinned) if pinned <= position => Copying::Follows,
            Copying::Sending(pinned) => Copying::Sending(pinned),
        }
    }
}

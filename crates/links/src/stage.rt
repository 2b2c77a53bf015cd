//! How far a standby's link is.

/// How far a standby's link is, which tells its reader what to do about a silence, and when to leave.
#[derive(Clone, Copy, Debug, PartialEq, Eq)]
pub(crate) enum Stage {
    /// The other side has not greeted yet.
    Unmet,
    /// It has, and the link lasts until it ends.
    Open,
    /// It has, and the node takes over its number: the link is left as soon as one frame was acknowledged.
    UntilFrame,
}

impl Stage {
    /// That of a link whose sides have greeted, where the node may take over this number.
    pub(crate) fn met(number: Option<u64>) -> Stage {
        match number {
            Some(_) => Stage::UntilFrame,
            None => Stage::Open,
        }
    }
}

//! How far a committer is with the groups in hand, and what a turn of it came to.
use model::Group;
use std::collections::VecDeque;
use wbl_engine::{Committed, Freed};

/// How far the committer is with the groups that it took.
#[derive(Debug, Drop)]
pub enum Stage {
    /// It may take the next ones.
    Ready,
    /// It has committed these, and not raised the local mark to the last of them.
    Durable(VecDeque<Group>),
    /// It has raised the local mark to the last of these, and not handed them on.
    Shown(VecDeque<Group>),
}

/// What a turn came to.
#[derive(Debug, Drop)]
pub enum Done {
    /// Groups were taken and committed: the engine says up to which position everything is durable now.
    Committed(Committed),
    /// The local mark was raised to the engine's position.
    Raised,
    /// The first group in hand was handed on.
    Handed,
    /// The oldest free list aside was freed.
    Freed(Freed),
    /// The oldest gap of the record was cleared. It gives back no extent.
    Cleared(Freed),
    /// There was nothing to do: no group came, or the link has no known room; and what may be freed or cleared is not due. Nothing changed, but that free
    /// lists may have been set aside.
    Idle,
}

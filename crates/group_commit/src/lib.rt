//! The committer: it commits groups, shows how far they are durable, and hands them on.
#![tactic(auto)]

mod committer;
mod due;
mod queue;
mod restarting;
mod stage;

pub use committer::Committer;
pub use due::Due;
pub use stage::{Done, Stage};

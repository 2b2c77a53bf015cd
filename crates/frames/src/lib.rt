//! What the two nodes tell each other: frames of changes, frames of a copy in parts, and acknowledgements.
#![tactic(auto)]

mod ack;
mod copy;
mod frame;

pub use ack::Ack;
pub use copy::{CopyEnd, CopyPart, CopyWanted};
pub use frame::Frame;

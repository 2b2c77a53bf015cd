//! A primary's list, queue and committer, in two parts that may be in threads of their own: what waits for the committer always leads to what the sequencer holds.
#![tactic(auto)]

mod ahead;
mod back;
mod closing;
mod copies;
mod frame;
mod front;
mod opening;
mod primary;
mod restarting;
mod resuming;

pub use ahead::{close_ahead, take_ahead};
pub use back::Back;
pub use frame::{CopyFrame, MAX_PART_BYTES};
pub use front::Front;
pub use opening::{Opened, open};
pub use primary::{Primary, close, take_back};

//! The sequencer: it turns what the connections ask into one list of calls, and hands out what changed as groups to commit.
#![tactic(auto)]

mod closing;
mod copies;
mod copying;
mod error;
mod laws;
mod listing;
mod marking;
mod running;
mod seats;
mod sequencer;
mod store;
mod store_copies;
mod turn;

pub use laws::parts_are_the_copy;
pub use sequencer::Sequencer;
pub use turn::Turn;

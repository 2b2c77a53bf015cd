//! Persistent memory as lists of candidates, and a simulated device that can be crashed.
#![tactic(auto)]

mod cells;
mod device;
mod history;
mod keep;
mod laws;
mod runs;
mod sim;

pub use device::{Crashing, Fault, Pmem};
pub use history::History;
pub use laws::{
    a_higher_floor_leaves_no_more, calls_chain, moments_are_enough, no_cut_explains_a_fall,
    passed_states_are_told_by_their_moments, the_present_floor_leaves_present_words,
};
pub use runs::{flush_all, flush_lines, persist, persist_durably, store_all, store_words};
pub use sim::SimPmem;

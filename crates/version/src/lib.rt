//! What each program says of itself where it is asked which one it is.
#![tactic(auto)]

mod release;

pub use release::VERSION;

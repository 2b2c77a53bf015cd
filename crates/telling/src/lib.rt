//! Lines that a program tells while it runs: each has its time, and whoever tells one waits for nobody.
#![tactic(auto)]

mod lines;
mod stamp;

pub use lines::Lines;
pub use stamp::Stamp;

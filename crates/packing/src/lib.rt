//! Which extents to move, in which order and where to, so that a run of free lines comes to be.
#![tactic(auto)]

mod choice;
mod holes;
mod moves;
mod placed;
mod plan;
mod sliding;
mod stretches;
mod taken;
mod windows;

pub use moves::Move;
pub use sliding::slide_down;
pub use windows::make_window;

#[cfg(test)]
mod tests;

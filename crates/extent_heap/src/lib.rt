//! Which lines and entries of an image are free.
#![tactic(auto)]

mod bits;
mod entries;
mod heap;
mod runs;
mod spare;
mod tree;

pub use heap::ExtentHeap;

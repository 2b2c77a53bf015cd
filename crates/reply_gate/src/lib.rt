//! A connection's gate: replies are held until both nodes hold the positions at which they were made.
#![tactic(auto)]

mod gate;
mod held_text;
mod parts;
mod shared_part;

pub use gate::Gate;
pub use held_text::HeldText;
pub use parts::SHARED_BYTES;

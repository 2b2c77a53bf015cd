//! The descriptors of a program: those of the standard streams, which it may be started without, and how many there are for clients.
#![tactic(auto)]

mod holding;
mod limits;

pub use holding::{Held, NoNullDevice, hold_closed};
pub use limits::{Room, room_for_clients, room_under};

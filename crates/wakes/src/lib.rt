//! Who wakes whom: the wakers of threads, and the small things that threads tell one another beside their rings.
#![tactic(auto)]

mod calls;
mod due;
mod flags;
mod idle;
mod ready_list;
mod seat_number;
mod seat_waker;
mod sleeper;
mod waker;

pub use calls::{Called, Calls};
pub use due::{DUE_ITEMS, Due, DueIn, DueOut, due_list};
pub use flags::{ConnectionFlags, Flag};
pub use idle::Idle;
pub use ready_list::{NextReady, ReadyList};
pub use seat_number::SeatNumber;
pub use seat_waker::SeatWaker;
pub use sleeper::{LONGEST_SLEEP_MILLISECONDS, Sleeper, new_sleeper};
pub use waker::Waker;

//! Pipes between actors, and the seats of the connections that they serve.
#![tactic(auto)]

mod ends;
mod finished;
mod limits;
mod local_pipe;
mod ring_pipe;
mod seat;

pub use ends::{Inlet, Outlet};
pub use finished::{FinishedInlet, FinishedOutlet, LeftItems, join};
pub use limits::{KEPT_GROUPS, MAX_SEATS, PIPE_ITEMS};
pub use local_pipe::LocalPipe;
pub use ring_pipe::{RingInlet, RingOutlet, RingPipe};
pub use seat::Seat;

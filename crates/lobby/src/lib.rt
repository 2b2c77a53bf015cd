//! The seats of a server, free and taken, and the connections that wait to be served.
#![tactic(auto)]

mod arrival;
mod entrance;
mod lobby;

pub use arrival::Arrival;
pub use entrance::Entrance;
pub use lobby::Lobby;
pub use pipes::{MAX_SEATS, Seat};

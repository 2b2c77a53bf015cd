//! The threads of a primary that many connections share: the node's own, and the acceptor.
#![tactic(auto)]

mod accepting;
mod again;
mod ahead;
mod callers;
mod closing;
mod commit_job;
mod committing;
mod copying;
mod crossing;
mod filling;
mod gathering;
mod laws;
mod link_ends;
mod making;
mod mark_seats;
mod needs;
mod node;
mod open_connection;
mod open_connections;
mod places;
mod setup;
mod shared_entrance;
mod starting;
mod step_time;
mod stop;
mod tended;
mod turns;
mod visited;
mod watching;

pub use accepting::Acceptor;
pub use laws::rounds_are_acts;
pub use node::Node;
pub use open_connections::OpenConnections;
pub use setup::{ClientLimits, Setup, Watch};
pub use shared_entrance::SharedEntrance;
pub use starting::run;
pub use stop::Stop;

//! From a connection's bytes to its requests, up to the one that closes it.
#![tactic(auto)]

mod inbound;

pub use inbound::Inbound;

//! The connections of clients, from the bytes that come in to those that go out, and the one list of calls that is made of their items.
#![tactic(auto)]

mod asking;
mod connection;
mod connections;
mod outbound;
mod transcript;

pub use connections::Connections;
pub use transcript::Transcript;

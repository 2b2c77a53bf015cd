//! Whether a word of a command line can be an address.
#![tactic(auto)]

mod host_and_port;

pub use host_and_port::is_address;

//! The commands on strings, counters, keys and the connection: what each answers and changes.
#![tactic(auto)]

mod condition;
mod connection;
mod counters;
mod keys;
mod strings;

pub use connection::{echo, ping, quit};
pub use counters::{decr, decrby, incr, incrby};
pub use keys::{dbsize, del, exists, flushdb, type_of};
pub use strings::{append, get, getdel, mget, mset, msetnx, set, setnx, strlen};

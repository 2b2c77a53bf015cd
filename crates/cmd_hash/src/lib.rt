//! The commands on hashes: what each answers and changes.
#![tactic(auto)]

mod counter;
mod reading;
mod whole;
mod writing;

pub use counter::hincrby;
pub use reading::{hexists, hget, hmget, hstrlen};
pub use whole::{hgetall, hkeys, hlen, hvals};
pub use writing::{hdel, hset, hsetnx};

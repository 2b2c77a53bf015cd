//! The vocabulary that every crate shares: keys, values, changes, requests, replies, refusals, and what they mean.
#![tactic(auto)]

mod bounded;
mod byte_order;
mod change;
mod command_name;
mod counted;
mod grammar_laws;
mod inline;
mod integer;
mod item;
mod laws;
mod limits;
mod listed;
mod payload;
mod place;
mod plain_keyspace;
mod record_id;
mod refusal;
mod reply;
mod request;
mod seen;
mod stop;
mod storage;

pub use bounded::{BoundedBytes, Field, Key, Value};
pub use byte_order::compare_bytes;
pub use change::Change;
pub use command_name::{COMMANDS, CommandName};
pub use grammar_laws::{items_are_asked_for, items_grow, one_spelling};
pub use integer::{read_int, write_int};
pub use item::{Item, ProtocolFault};
pub use laws::{
    array_text, commands_are_found, keyspace_stays, look_up_after_change, look_ups_tell_apart,
    play_in_two_parts, records_are_found,
};
pub use limits::{Limits, MAX_CHANGE_BYTES, MAX_KEY_BYTES, MAX_VALUE_BYTES, REQUEST_LIMITS};
pub use listed::Listed;
pub use payload::Payload;
pub use place::{EntryNo, Extent};
pub use plain_keyspace::PlainKeyspace;
pub use record_id::RecordId;
pub use refusal::Refusal;
pub use reply::{Held, Reply};
pub use request::Request;
pub use seen::Seen;
pub use stop::Stop;

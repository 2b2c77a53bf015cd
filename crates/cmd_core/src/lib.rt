//! What all commands share: the shape of a request, outcomes and their replies, errors, and what is read of a keyspace.
#![tactic(auto)]

mod bounds;
mod counter;
mod error;
mod integer;
mod lookup;
mod naming;
mod ordered;
mod outcome;
mod plain_lookup;
mod puts;
mod reading;
mod record;
mod shape;

pub use bounds::stored;
pub use counter::increase;
pub use error::CommandError;
pub use integer::{int_of, number_text};
pub use lookup::Lookup;
pub use naming::firsts;
pub use ordered::{
    count_fields_in_order, end_of_field, end_of_key, field_in_order, fields_in_order, has_in_order,
    start_of_field, start_of_fields, start_of_key, string_in_order,
};
pub use outcome::{Answer, Outcome, Status};
pub use puts::{MAX_INTEGER_BYTES, PutBound, Puts};
pub use reading::{check_hash, string_at};
pub use record::{
    KeptRecord, count_fields_in, count_keys_in, field_in, fields_in, has_in, string_in,
};
pub use shape::{Keys, WordCount};

//! What a command does to the keyspace.
ghost use Rattle.std.specs.Prelude.{◌≡◌, ◌+◌, ◌≤◌, length};
ghost use Rattle.kv_types.specs.Change.{short_bytes, long_bytes};

use crate::bounded::{Key, Value};
use crate::limits::{MAX_CHANGE_BYTES, MAX_KEY_BYTES, MAX_VALUE_BYTES};
use crate::record_id::RecordId;
use std::alloc::AllocError;

/// One change of the keyspace.
#[derive(Debug, PartialEq, Eq, Drop)]
pub enum Change {
    /// Sets a string, replacing whatever the key held; or sets a field, in a new hash if the key is absent or held a string.
    Put(RecordId, Value),
    /// Removes one record. Removing a key's last field removes the key.
    Drop(RecordId),
    /// Removes a key and all that it held.
    DropKey(Key),
    /// Removes all keys.
    Clear,
}

impl Change {
    ghost use Rattle.kv_types.specs.Change.{change_text};

    /// How many bytes the change has in a frame.
    pub fn text_size(&self) -> usize
        ensures value { result ≡ length (change_text self.now) }
        ensures bound { result ≤ MAX_CHANGE_BYTES }
    {
        match self {
            Change::Put(RecordId::Str(key), value) => 1 + short_size(key) + long_size(value),
            Change::Put(RecordId::Field(key, field), value) => 1
                + short_size(key)
                + short_size(field)
                + long_size(value),
            Change::Drop(RecordId::Str(key)) => 1 + short_size(key),
            Change::Drop(RecordId::Field(key, field)) => 1 + short_size(key) + short_size(field),
            Change::DropKey(key) => 1 + short_size(key),
            Change::Clear => 1,
        }
    }
}

impl Clone for Change {
    ghost use Rattle.std.specs.Prelude.{◌≡◌};

    ghost is_clone = { λ change copy. copy ≡ change };

    fn clone(&self) -> Result<Change, AllocError> {
        Ok(match self {
            Change::Put(id, value) => Change::Put(id.clone()?, value.clone()?),
            Change::Drop(id) => Change::Drop(id.clone()?),
            Change::DropKey(key) => Change::DropKey(key.clone()?),
            Change::Clear => Change::Clear,
        })
    }
}

/// How many bytes a key or a field has in a frame, including the two of its length.
fn short_size(name: &Key) -> usize
    ensures value { result ≡ length (short_bytes name.now) }
    ensures bound { result ≤ 2 + MAX_KEY_BYTES }
{
    2 + name.len()
}

/// How many bytes a value has in a frame, including the four of its length.
fn long_size(value: &Value) -> usize
    ensures value { result ≡ length (long_bytes value.now) }
    ensures bound { result ≤ 4 + MAX_VALUE_BYTES }
{
    4 + value.len()
}

//! Lists of records, and what commands read of one.
ghost use Rattle.std.specs.Prelude.{◌≡◌, ℕ, ◌+◌, ◌<◌, ◌^◌, List, map, length, IsTrue, IfOk};
ghost use Rattle.std.specs.Option.{option_copied};
ghost use Rattle.std.specs.Ordering.{eq_by_cmp};
ghost use Rattle.std.specs.FinMap.Entries.{is_sorted};
ghost use Rattle.kv_types.specs.Keyspace.{key_of, value_at, record_cmp};
ghost use Rattle.cmd_core.specs.Contents.{has_key, keys_of, fields_of, same_bytes};
ghost use Rattle.cmd_core.specs.Record.{field_at, next_has_key};

use kv_types::{Field, RecordId, Value};
use std::alloc::{AllocError, Global};

/// A record as a list keeps it.
pub trait KeptRecord {
    ghost use Rattle.kv_types.specs.declared.record_id.RecordId.{RecordId};

    /// Its name and its value.
    ghost kept: { Self → RecordId × List ℕ };

    fn id(&self) -> &RecordId
        ensures { result.now ≡ (kept self.now).0 };

    fn value(&self) -> &Value
        ensures { result.now ≡ (kept self.now).1 };
}

impl KeptRecord for (RecordId, Value) {
    ghost kept = { λ it. it };

    fn id(&self) -> &RecordId {
        &self.0
    }

    fn value(&self) -> &Value {
        &self.1
    }
}

/// The string at a key.
pub fn string_in<'a, R: KeptRecord>(records: &'a [R], key: &[u8]) -> Option<&'a Value>
    ensures { option_copied result ≡ value_at (map R.kept records.now) (RecordId.Str key.now) }
{
    for record in records {
        if is_string(record.id(), key) {
            return Some(record.value());
        }
    }
    None
}

/// The value of a field of the hash at a key.
pub fn field_in<'a, R: KeptRecord>(records: &'a [R], key: &[u8], field: &[u8]) -> Option<&'a Value>
    ensures { option_copied result ≡ value_at (map R.kept records.now) (RecordId.Field key.now field.now) }
{
    for record in records {
        if is_field(record.id(), key, field) {
            return Some(record.value());
        }
    }
    None
}

/// Whether there is a string or a hash at a key.
pub fn has_in<R: KeptRecord>(records: &[R], key: &[u8]) -> bool
    ensures { result ≡ has_key (map R.kept records.now) key.now }
{
    for record in records {
        if is_of_key(record.id(), key) {
            return true;
        }
    }
    false
}

/// How many keys there are in a list in the order of records, in which those of one key are next to one another.
pub fn count_keys_in<R: KeptRecord>(records: &[R]) -> u64
    requires order { IsTrue (is_sorted record_cmp (map R.kept records.now)) }
    requires few { length records.now < 2 ^ 63 }
    ensures value { result ≡ length (keys_of (map R.kept records.now)) }
    ensures bound { result < 2 ^ 63 }
{
    let mut count = 0;
    let mut rest = records;
    while let [record, later @ ..] = rest {
        if !begins_with_key(later, record.id().key().as_slice()) {
            count += 1;
        }
        rest = later;
    }
    count
}

/// How many fields the hash at a key has.
pub fn count_fields_in<R: KeptRecord>(records: &[R], key: &[u8]) -> u64
    requires few { length records.now < 2 ^ 63 }
    ensures value { result ≡ length (fields_of (map R.kept records.now) key.now) }
    ensures bound { result < 2 ^ 63 }
{
    let mut count = 0;
    for record in records {
        if field_if_of(record.id(), key).is_some() {
            count += 1;
        }
    }
    count
}

/// The fields of the hash at a key with their values, which are shared, in the order of the list.
pub fn fields_in<R: KeptRecord>(
    alloc: Global,
    records: &[R],
    key: &[u8],
) -> Result<Vec<(Field, Value)>, AllocError>
    ensures { IfOk result (λ fields. fields.items ≡ fields_of (map R.kept records.now) key.now) }
{
    let mut fields = Vec::new(alloc);
    for record in records {
        if let Some(field) = field_if_of(record.id(), key) {
            fields.push((field.clone()?, record.value().clone()?))?;
        }
    }
    Ok(fields)
}

pub(crate) fn is_string(id: &RecordId, key: &[u8]) -> bool
    ensures { result ≡ eq_by_cmp record_cmp (RecordId.Str key.now) id.now }
{
    match id {
        RecordId::Str(own) => key == own.as_slice(),
        RecordId::Field(..) => false,
    }
}

pub(crate) fn is_field(id: &RecordId, key: &[u8], field: &[u8]) -> bool
    ensures { result ≡ eq_by_cmp record_cmp (RecordId.Field key.now field.now) id.now }
{
    match id {
        RecordId::Str(_) => false,
        RecordId::Field(own, name) => key == own.as_slice() && field == name.as_slice(),
    }
}

fn is_of_key(id: &RecordId, key: &[u8]) -> bool
    ensures { result ≡ same_bytes (key_of id.now) key.now }
{
    id.key().as_slice() == key
}

/// Whether the first record is one of this key.
pub(crate) fn begins_with_key<R: KeptRecord>(records: &[R], key: &[u8]) -> bool
    ensures { result ≡ next_has_key (map R.kept records.now) key.now }
{
    match records {
        [] => false,
        [first, ..] => is_of_key(first.id(), key),
    }
}

/// The field that a record is, where it is one of this key.
fn field_if_of<'a>(id: &'a RecordId, key: &[u8]) -> Option<&'a Field>
    ensures { option_copied result ≡ field_at id.now key.now }
{
    match id {
        RecordId::Str(_) => None,
        RecordId::Field(own, field) => if own.as_slice() == key {
            Some(field)
        } else {
            None
        },
    }
}

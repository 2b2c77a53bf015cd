//! What commands read of a list of records in their order, found by halving it.
ghost use Rattle.std.specs.Prelude.{◌≡◌, ◌<◌, ◌^◌, map, length, IsTrue, IfOk};
ghost use Rattle.std.specs.List.{filter};
ghost use Rattle.std.specs.Option.{option_copied, is_some};
ghost use Rattle.std.specs.FinMap.Entries.{is_sorted};
ghost use Rattle.kv_types.specs.Keyspace.{value_at, record_cmp};
ghost use Rattle.cmd_core.specs.Contents.{has_key, fields_of};
ghost use Rattle.cmd_core.specs.Record.{SplitsAt, comes_before, field_at, first_value, has_key_up_to, is_up_to};

use crate::record::{KeptRecord, begins_with_key, fields_in, is_field, is_string};
use kv_types::{Field, RecordId, Value};
use std::alloc::{AllocError, Global};
use std::cmp::Ordering;

/// The string at a key.
pub fn string_in_order<'a, R: KeptRecord>(records: &'a [R], key: &[u8]) -> Option<&'a Value>
    requires order { IsTrue (is_sorted record_cmp (map R.kept records.now)) }
    ensures { option_copied result ≡ value_at (map R.kept records.now) (RecordId.Str key.now) }
{
    let (_, rest) = records.split_at(start_of_key(records, key));
    first_string(rest, key)
}

/// The value of a field of the hash at a key.
pub fn field_in_order<'a, R: KeptRecord>(
    records: &'a [R],
    key: &[u8],
    field: &[u8],
) -> Option<&'a Value>
    requires order { IsTrue (is_sorted record_cmp (map R.kept records.now)) }
    ensures { option_copied result ≡ value_at (map R.kept records.now) (RecordId.Field key.now field.now) }
{
    let (_, rest) = records.split_at(start_of_field(records, key, field));
    first_field(rest, key, field)
}

/// Whether there is a string or a hash at a key.
pub fn has_in_order<R: KeptRecord>(records: &[R], key: &[u8]) -> bool
    requires order { IsTrue (is_sorted record_cmp (map R.kept records.now)) }
    ensures { result ≡ has_key (map R.kept records.now) key.now }
{
    let (_, rest) = records.split_at(start_of_key(records, key));
    begins_with_key(rest, key)
}

/// How many fields the hash at a key has.
pub fn count_fields_in_order<R: KeptRecord>(records: &[R], key: &[u8]) -> u64
    requires order { IsTrue (is_sorted record_cmp (map R.kept records.now)) }
    requires few { length records.now < 2 ^ 63 }
    ensures value { result ≡ length (fields_of (map R.kept records.now) key.now) }
    ensures bound { result < 2 ^ 63 }
{
    fields_of_key(records, key).len() as u64
}

/// The fields of the hash at a key with their values, which are shared, in the order of the list.
pub fn fields_in_order<R: KeptRecord>(
    alloc: Global,
    records: &[R],
    key: &[u8],
) -> Result<Vec<(Field, Value)>, AllocError>
    requires order { IsTrue (is_sorted record_cmp (map R.kept records.now)) }
    ensures { IfOk result (λ fields. fields.items ≡ fields_of (map R.kept records.now) key.now) }
{
    fields_in(alloc, fields_of_key(records, key), key)
}

/// The index at which the records of a key begin: its string, if it has one, then its fields.
pub fn start_of_key<R: KeptRecord>(records: &[R], key: &[u8]) -> usize
    requires order { IsTrue (is_sorted record_cmp (map R.kept records.now)) }
    ensures { SplitsAt (λ x. comes_before (RecordId.Str key.now) (R.kept x).0) records.now result }
{
    records.partition_point(|record| is_before_key(record.id(), key))
}

/// The index behind the string of a key, if it has one, at which its fields begin.
pub fn start_of_fields<R: KeptRecord>(records: &[R], key: &[u8]) -> usize
    requires order { IsTrue (is_sorted record_cmp (map R.kept records.now)) }
    ensures { SplitsAt (λ x. is_up_to (RecordId.Str key.now) (R.kept x).0) records.now result }
{
    records.partition_point(|record| is_up_to_string(record.id(), key))
}

/// The index behind the last record of a key.
pub fn end_of_key<R: KeptRecord>(records: &[R], key: &[u8]) -> usize
    requires order { IsTrue (is_sorted record_cmp (map R.kept records.now)) }
    ensures { SplitsAt (λ x. has_key_up_to key.now (R.kept x).0) records.now result }
{
    records.partition_point(|record| record.id().key().as_slice().cmp(key).is_le())
}

/// The index of a field of a key, or the one at which it would go in.
pub fn start_of_field<R: KeptRecord>(records: &[R], key: &[u8], field: &[u8]) -> usize
    requires order { IsTrue (is_sorted record_cmp (map R.kept records.now)) }
    ensures { SplitsAt (λ x. comes_before (RecordId.Field key.now field.now) (R.kept x).0) records.now result }
{
    records.partition_point(|record| compare_to_field(record.id(), key, field).is_lt())
}

/// The index behind a field of a key, or the one at which it would go in.
pub fn end_of_field<R: KeptRecord>(records: &[R], key: &[u8], field: &[u8]) -> usize
    requires order { IsTrue (is_sorted record_cmp (map R.kept records.now)) }
    ensures { SplitsAt (λ x. is_up_to (RecordId.Field key.now field.now) (R.kept x).0) records.now result }
{
    records.partition_point(|record| compare_to_field(record.id(), key, field).is_le())
}

/// The records that are fields of a key, which are next to one another.
fn fields_of_key<'a, R: KeptRecord>(records: &'a [R], key: &[u8]) -> &'a [R]
    requires order { IsTrue (is_sorted record_cmp (map R.kept records.now)) }
    ensures { result.now ≡ filter (λ x. is_some (field_at (R.kept x).0 key.now)) records.now }
{
    let start = start_of_fields(records, key);
    let end = end_of_key(records, key);
    &records[start..end]
}

/// The value of the first record, where it is the string of this key.
fn first_string<'a, R: KeptRecord>(records: &'a [R], key: &[u8]) -> Option<&'a Value>
    ensures { option_copied result ≡ first_value (map R.kept records.now) (RecordId.Str key.now) }
{
    match records {
        [] => None,
        [first, ..] => if is_string(first.id(), key) {
            Some(first.value())
        } else {
            None
        },
    }
}

/// The value of the first record, where it is this field of this key.
fn first_field<'a, R: KeptRecord>(records: &'a [R], key: &[u8], field: &[u8]) -> Option<&'a Value>
    ensures { option_copied result ≡ first_value (map R.kept records.now) (RecordId.Field key.now field.now) }
{
    match records {
        [] => None,
        [first, ..] => if is_field(first.id(), key, field) {
            Some(first.value())
        } else {
            None
        },
    }
}

/// Whether a record comes before the string of a key, and so before all records of the key.
fn is_before_key(id: &RecordId, key: &[u8]) -> bool
    ensures { result ≡ comes_before (RecordId.Str key.now) id.now }
{
    id.key().as_slice().cmp(key).is_lt()
}

/// How a record compares to a field of a key, in the order of records.
fn compare_to_field(id: &RecordId, key: &[u8], field: &[u8]) -> Ordering
    ensures { result ≡ record_cmp id.now (RecordId.Field key.now field.now) }
{
    match id.key().as_slice().cmp(key) {
        Ordering::Equal => match id {
            RecordId::Str(_) => Ordering::Less,
            RecordId::Field(_, own) => own.as_slice().cmp(field),
        },
        order => order,
    }
}

/// Whether a record is the string of a key or comes before it.
fn is_up_to_string(id: &RecordId, key: &[u8]) -> bool
    ensures { result ≡ is_up_to (RecordId.Str key.now) id.now }
{
    match id {
        RecordId::Str(own) => own.as_slice().cmp(key).is_le(),
        RecordId::Field(own, _) => own.as_slice().cmp(key).is_lt(),
    }
}

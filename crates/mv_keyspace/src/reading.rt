//! What is read of the slot of a key.
ghost use Rattle.std.specs.Prelude.{◌≡◌, ◌<◌, ◌^◌, ℕ, List, length, None, Some, IfOk, MatchOption};
ghost use Rattle.std.specs.Option.{option_copied};
ghost use Rattle.cmd_core.specs.Contents.{fields_of, has_key};
ghost use Rattle.kv_types.specs.Keyspace.{key_of, value_at};
ghost use Rattle.mv_keyspace.specs.Row.{records_of, table_of};
ghost use Rattle.mv_keyspace.specs.Slot.{rows_of};
ghost use Rattle.mv_keyspace.specs.Table.{cell_at};
ghost use Rattle.mv_keyspace.specs.Version.{cell_of_shown};

use crate::gathering::find_row;
use crate::shown::Shown;
use crate::slot::Slot;
use cmd_core::{count_fields_in_order, field_in_order, fields_in_order, string_in_order};
use kv_types::{Field, RecordId, Value};
use std::alloc::{AllocError, Global};

/// The string of the key.
pub(crate) fn string_in<'a>(slot: &'a Slot, key: &[u8]) -> Option<&'a Value>
    ensures { option_copied result ≡ value_at (records_of (rows_of key.now slot.now)) (RecordId.Str key.now) }
{
    match slot {
        Slot::Vacant(_) => None,
        Slot::Str(_, version) => Some(&version.value),
        Slot::Rows(list) => string_in_order(list.rows(), key),
    }
}

/// The value of a field of the hash at the key.
pub(crate) fn field_in<'a>(slot: &'a Slot, key: &[u8], field: &[u8]) -> Option<&'a Value>
    ensures { option_copied result ≡ value_at (records_of (rows_of key.now slot.now)) (RecordId.Field key.now field.now) }
{
    match slot {
        Slot::Vacant(_) => None,
        Slot::Str(..) => None,
        Slot::Rows(list) => field_in_order(list.rows(), key, field),
    }
}

/// Whether there is a string or a hash at the key.
pub(crate) fn has_in(slot: &Slot, key: &[u8]) -> bool
    ensures { result ≡ has_key (records_of (rows_of key.now slot.now)) key.now }
{
    match slot {
        Slot::Vacant(_) => false,
        Slot::Str(..) => true,
        Slot::Rows(list) => list.has(key),
    }
}

/// How many fields the hash at the key has.
pub(crate) fn count_fields_in(slot: &Slot, key: &[u8]) -> u64
    ensures value { result ≡ length (fields_of (records_of (rows_of key.now slot.now)) key.now) }
    ensures bound { result < 2 ^ 63 }
{
    match slot {
        Slot::Vacant(_) => 0,
        Slot::Str(..) => 0,
        Slot::Rows(list) => count_fields_in_order(list.rows(), key),
    }
}

/// The fields of the hash at the key with their values, which are shared, in their order.
pub(crate) fn fields_in(
    alloc: Global,
    slot: &Slot,
    key: &[u8],
) -> Result<Vec<(Field, Value)>, AllocError>
    ensures { IfOk result (λ fields. fields.items ≡ fields_of (records_of (rows_of key.now slot.now)) key.now) }
{
    match slot {
        Slot::Vacant(_) => Ok(Vec::new(alloc)),
        Slot::Str(..) => Ok(Vec::new(alloc)),
        Slot::Rows(list) => fields_in_order(alloc, list.rows(), key),
    }
}

/// How many records there are of the key.
pub(crate) fn count_in(slot: &Slot) -> usize
    ensures value { (key : List ℕ) → result ≡ length (rows_of key slot.now) }
    ensures bound { result < 2 ^ 63 }
{
    match slot {
        Slot::Vacant(_) => 0,
        Slot::Str(..) => 1,
        Slot::Rows(list) => list.rows().len(),
    }
}

/// What a record of the key holds.
pub(crate) fn find_in<'a>(slot: &'a Slot, id: &RecordId) -> Option<Shown<'a>>
    ensures { MatchOption result (cell_at (table_of (rows_of (key_of id.now) slot.now)) id.now ≡ None)
        (λ shown. cell_at (table_of (rows_of (key_of id.now) slot.now)) id.now ≡ Some (cell_of_shown shown)) }
{
    match slot {
        Slot::Vacant(_) => None,
        Slot::Str(_, version) => match id {
            RecordId::Str(_) => Some(version.shown()),
            RecordId::Field(..) => None,
        },
        Slot::Rows(list) => find_row(list.rows(), id),
    }
}

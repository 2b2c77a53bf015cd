//! Rows that are gathered by their records. They share their bytes with those of the keyspace.
ghost use Rattle.std.specs.Prelude.{◌≡◌, None, Some, ◌≤◌, ℕ, List, length, IsTrue, OnOk, MatchOption, nat_eq, slice_range};
ghost use Rattle.std.specs.Ordering.{eq_by_cmp};
ghost use Rattle.std.specs.Cmp.Lexicographic.{pointwise};
ghost use Rattle.std.specs.FinMap.Entries.{is_sorted, where_key};
ghost use Rattle.kv_types.specs.declared.change.Change.TheVariants as kinds;
ghost use Rattle.kv_types.specs.Keyspace.{key_of, record_cmp};
ghost use Rattle.model.specs.Group.{change_of};
ghost use Rattle.mv_keyspace.specs.Row.{cell_of_row, ended_rows, is_string_of, records_of, table_of};
ghost use Rattle.mv_keyspace.specs.Slot.{rows_of};
ghost use Rattle.mv_keyspace.specs.Slots.{AreSlots, rows_in};
ghost use Rattle.mv_keyspace.specs.Version.{cell_of_shown};
ghost use Rattle.mv_keyspace.specs.Table.{cell_at, with_cell};
ghost use Rattle.mv_keyspace.specs.Versions.{begun_at, table_in, with_rows};

use crate::counting::key_changed;
use crate::putting::range_of;
use crate::row::Row;
use crate::sharing::shared;
use crate::shown::Shown;
use crate::slot::Slot;
use cmd_core::{end_of_field, end_of_key, start_of_field, start_of_fields, start_of_key};
use kv_types::{Key, RecordId};
use model::PlacedChange;
use std::alloc::AllocError;
use std::collections::BTreeMap;

/// Puts a row in, in the place of one of its record.
pub(crate) fn put_shared(
    gathered: &mut BTreeMap<RecordId, Row>,
    row: &Row,
) -> Result<(), AllocError>
    ensures { OnOk result (table_in gathered.new.entries ≡ with_cell row.now.id (cell_of_row row.now) (table_in gathered.old.entries)) }
{
    match gathered.insert(row.id.clone()?, shared(row)?) {
        Ok(_) => Ok(()),
        Err(_) => Err(AllocError),
    }
}

/// Puts these rows in.
pub(crate) fn put_all(
    gathered: &mut BTreeMap<RecordId, Row>,
    rows: &[Row],
) -> Result<(), AllocError>
    ensures { OnOk result (table_in gathered.new.entries ≡ with_rows (table_of rows.now) (table_in gathered.old.entries)) }
{
    for row in rows {
        put_shared(gathered, row)?;
    }
    Ok(())
}

/// Puts those rows in that had begun at a position.
pub(crate) fn put_begun(
    gathered: &mut BTreeMap<RecordId, Row>,
    rows: &[Row],
    position: u64,
) -> Result<(), AllocError>
    ensures { OnOk result (table_in gathered.new.entries ≡ with_rows (begun_at position (table_of rows.now)) (table_in gathered.old.entries)) }
{
    for row in rows {
        if row.position <= position {
            put_shared(gathered, row)?;
        }
    }
    Ok(())
}

/// Puts those rows in that a change ends.
pub(crate) fn put_ended(
    gathered: &mut BTreeMap<RecordId, Row>,
    rows: &[Row],
    change: &PlacedChange,
) -> Result<(), AllocError>
    requires order { IsTrue (is_sorted record_cmp (records_of rows.now)) }
    ensures { OnOk result (table_in gathered.new.entries ≡ with_rows (ended_rows (change_of change.now) (table_of rows.now)) (table_in gathered.old.entries)) }
{
    match change {
        PlacedChange::Put(put) => put_replaced(gathered, rows, &put.id),
        PlacedChange::Drop(id) => {
            let (start, end) = range_of_record(rows, id);
            put_all(gathered, &rows[start..end])
        }
        PlacedChange::DropKey(key) => {
            let (start, end) = range_of_key(rows, key);
            put_all(gathered, &rows[start..end])
        }
        PlacedChange::Clear => put_all(gathered, rows),
    }
}

/// Puts those rows in that a put of a record ends: that of the record itself, and all of the key or its string.
fn put_replaced(
    gathered: &mut BTreeMap<RecordId, Row>,
    rows: &[Row],
    id: &RecordId,
) -> Result<(), AllocError>
    requires order { IsTrue (is_sorted record_cmp (records_of rows.now)) }
    ensures { (value : List ℕ) → OnOk result (table_in gathered.new.entries ≡ with_rows (ended_rows (kinds.Put id.now value) (table_of rows.now)) (table_in gathered.old.entries)) }
{
    put_string_of(gathered, rows, id)?;
    let (start, end) = range_of(rows, id);
    put_all(gathered, &rows[start..end])
}

/// Puts in what a put of a record ends beside the rows in whose place it goes: the string of a field's key.
fn put_string_of(
    gathered: &mut BTreeMap<RecordId, Row>,
    rows: &[Row],
    id: &RecordId,
) -> Result<(), AllocError>
    requires order { IsTrue (is_sorted record_cmp (records_of rows.now)) }
    ensures { OnOk result (table_in gathered.new.entries ≡ with_rows (where_key record_cmp (is_string_of id.now) (table_of rows.now)) (table_in gathered.old.entries)) }
{
    match id {
        RecordId::Str(_) => Ok(()),
        RecordId::Field(key, _) => {
            let (start, end) = range_of_string(rows, key);
            put_all(gathered, &rows[start..end])
        }
    }
}

/// Puts those rows of the slot of a key in that a change ends.
fn put_ended_of(
    gathered: &mut BTreeMap<RecordId, Row>,
    key: &Key,
    slot: &Slot,
    change: &PlacedChange,
) -> Result<(), AllocError>
    ensures { OnOk result (table_in gathered.new.entries ≡ with_rows (ended_rows (change_of change.now) (table_of (rows_of key.now slot.now))) (table_in gathered.old.entries)) }
{
    match slot {
        Slot::Vacant(_) => Ok(()),
        Slot::Str(_, version) => put_ended(gathered, &[version.row(key)?], change),
        Slot::Rows(list) => put_ended(gathered, list.rows(), change),
    }
}

/// Puts the rows of the slot of a key in.
fn put_slot(
    gathered: &mut BTreeMap<RecordId, Row>,
    key: &Key,
    slot: &Slot,
) -> Result<(), AllocError>
    ensures { OnOk result (table_in gathered.new.entries ≡ with_rows (table_of (rows_of key.now slot.now)) (table_in gathered.old.entries)) }
{
    match slot {
        Slot::Vacant(_) => Ok(()),
        Slot::Str(_, version) => put_shared(gathered, &version.row(key)?),
        Slot::Rows(list) => put_all(gathered, list.rows()),
    }
}

/// Puts those rows of the slot of a key in that had begun at a position.
pub(crate) fn put_begun_of(
    gathered: &mut BTreeMap<RecordId, Row>,
    key: &Key,
    slot: &Slot,
    position: u64,
) -> Result<(), AllocError>
    ensures { OnOk result (table_in gathered.new.entries ≡ with_rows (begun_at position (table_of (rows_of key.now slot.now))) (table_in gathered.old.entries)) }
{
    match slot {
        Slot::Vacant(_) => Ok(()),
        Slot::Str(_, version) => if version.position <= position {
            put_shared(gathered, &version.row(key)?)
        } else {
            Ok(())
        },
        Slot::Rows(list) => put_begun(gathered, list.rows(), position),
    }
}

/// Puts those rows of all slots in that a change ends.
pub(crate) fn put_ended_in(
    gathered: &mut BTreeMap<RecordId, Row>,
    slots: &BTreeMap<Key, Slot>,
    change: &PlacedChange,
) -> Result<(), AllocError>
    requires { AreSlots slots.now.entries }
    ensures { OnOk result (table_in gathered.new.entries ≡ with_rows (ended_rows (change_of change.now) (table_of (rows_in slots.now.entries))) (table_in gathered.old.entries)) }
{
    match key_changed(change) {
        Some(key) => match slots.get(key) {
            Some(slot) => put_ended_of(gathered, key, slot, change),
            None => Ok(()),
        },
        None => put_all_slots(gathered, slots),
    }
}

/// Puts the rows of all slots in.
fn put_all_slots(
    gathered: &mut BTreeMap<RecordId, Row>,
    slots: &BTreeMap<Key, Slot>,
) -> Result<(), AllocError>
    ensures { OnOk result (table_in gathered.new.entries ≡ with_rows (table_of (rows_in slots.now.entries)) (table_in gathered.old.entries)) }
{
    for entry in slots {
        put_slot(gathered, entry.0, entry.1)?;
    }
    Ok(())
}

/// What the row of a record holds.
pub(crate) fn find_row<'a>(rows: &'a [Row], id: &RecordId) -> Option<Shown<'a>>
    requires order { IsTrue (is_sorted record_cmp (records_of rows.now)) }
    ensures { MatchOption result (cell_at (table_of rows.now) id.now ≡ None) (λ shown. cell_at (table_of rows.now) id.now ≡ Some (cell_of_shown shown)) }
{
    let (start, end) = range_of_record(rows, id);
    if start < end {
        Some(rows[start].shown())
    } else {
        None
    }
}

/// The range of the row of a record, which is empty where there is none.
fn range_of_record(rows: &[Row], id: &RecordId) -> (usize, usize)
    requires order { IsTrue (is_sorted record_cmp (records_of rows.now)) }
    ensures rise { result.0 ≤ result.1 }
    ensures within { result.1 ≤ length rows.now }
    ensures rows { table_of (slice_range rows.now result.0 result.1) ≡ where_key record_cmp (λ other. eq_by_cmp record_cmp other id.now) (table_of rows.now) }
{
    match id {
        RecordId::Str(key) => range_of_string(rows, key),
        RecordId::Field(key, field) => (
            start_of_field(rows, key.as_slice(), field.as_slice()),
            end_of_field(rows, key.as_slice(), field.as_slice()),
        ),
    }
}

/// The range of the string of a key, which is empty where there is none.
fn range_of_string(rows: &[Row], key: &Key) -> (usize, usize)
    requires order { IsTrue (is_sorted record_cmp (records_of rows.now)) }
    ensures rise { result.0 ≤ result.1 }
    ensures within { result.1 ≤ length rows.now }
    ensures rows { table_of (slice_range rows.now result.0 result.1) ≡ where_key record_cmp (λ id. eq_by_cmp record_cmp id (RecordId.Str key.now)) (table_of rows.now) }
{
    let start = start_of_key(rows, key.as_slice());
    let end = start_of_fields(rows, key.as_slice());
    (start, end)
}

/// The range of all rows of a key.
fn range_of_key(rows: &[Row], key: &Key) -> (usize, usize)
    requires order { IsTrue (is_sorted record_cmp (records_of rows.now)) }
    ensures rise { result.0 ≤ result.1 }
    ensures within { result.1 ≤ length rows.now }
    ensures rows { table_of (slice_range rows.now result.0 result.1) ≡ where_key record_cmp (λ id. pointwise nat_eq (key_of id) key.now) (table_of rows.now) }
{
    let start = start_of_key(rows, key.as_slice());
    let end = end_of_key(rows, key.as_slice());
    (start, end)
}

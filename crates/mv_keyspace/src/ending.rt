//! The rows that a change ends, taken out of a list in order by the ranges in which they stand.
ghost use Rattle.std.specs.Prelude.{◌≡◌, ◌+◌, ◌≤◌, ◌++◌, length, true, IsTrue, nat_eq, slice_range, vec_len, vec_capacity};
ghost use Rattle.std.specs.List.{remove_range};
ghost use Rattle.std.specs.Ordering.{eq_by_cmp};
ghost use Rattle.std.specs.Cmp.Lexicographic.{pointwise};
ghost use Rattle.std.specs.FinMap.Entries.{is_sorted, where_key};
ghost use Rattle.kv_types.specs.Keyspace.{key_of, record_cmp};
ghost use Rattle.mv_keyspace.specs.Table.{entries_of};
ghost use Rattle.mv_keyspace.specs.Row.{TakesOut, is_string_of, numbers_of, records_of, table_of};

use crate::row::Row;
use cmd_core::{end_of_field, end_of_key, start_of_field, start_of_fields, start_of_key};
use kv_types::{EntryNo, Field, Key, RecordId};

/// Ends all records.
pub(crate) fn end_all(rows: &mut Vec<Row>, ended: &mut Vec<EntryNo>)
    requires room { vec_len ended.old + length (where_key record_cmp (λ id. true) (table_of rows.old.items)) ≤ vec_capacity ended.old }
    ensures { TakesOut (λ id. true) rows.old rows.new ended.old ended.new }
{
    let end = rows.len();
    end_range(rows, 0, end, ended);
}

/// Ends all records of a key.
pub(crate) fn end_key(rows: &mut Vec<Row>, key: &Key, ended: &mut Vec<EntryNo>)
    requires order { IsTrue (is_sorted record_cmp (records_of rows.old.items)) }
    requires room { vec_len ended.old + length (where_key record_cmp (λ id. pointwise nat_eq (key_of id) key.now) (table_of rows.old.items)) ≤ vec_capacity ended.old }
    ensures { TakesOut (λ id. pointwise nat_eq (key_of id) key.now) rows.old rows.new ended.old ended.new }
{
    let start = start_of_key(rows, key.as_slice());
    let end = end_of_key(rows, key.as_slice());
    end_range(rows, start, end, ended);
}

/// Ends one record, if it is there.
pub(crate) fn end_record(rows: &mut Vec<Row>, id: &RecordId, ended: &mut Vec<EntryNo>)
    requires order { IsTrue (is_sorted record_cmp (records_of rows.old.items)) }
    requires room { vec_len ended.old + length (where_key record_cmp (λ other. eq_by_cmp record_cmp other id.now) (table_of rows.old.items)) ≤ vec_capacity ended.old }
    ensures { TakesOut (λ other. eq_by_cmp record_cmp other id.now) rows.old rows.new ended.old ended.new }
{
    match id {
        RecordId::Str(key) => end_string(rows, key, ended),
        RecordId::Field(key, field) => end_field(rows, key, field, ended),
    }
}

/// Ends the string of a key, if there is one.
fn end_string(rows: &mut Vec<Row>, key: &Key, ended: &mut Vec<EntryNo>)
    requires order { IsTrue (is_sorted record_cmp (records_of rows.old.items)) }
    requires room { vec_len ended.old + length (where_key record_cmp (λ other. eq_by_cmp record_cmp other (RecordId.Str key.now)) (table_of rows.old.items)) ≤ vec_capacity ended.old }
    ensures { TakesOut (λ other. eq_by_cmp record_cmp other (RecordId.Str key.now)) rows.old rows.new ended.old ended.new }
{
    let start = start_of_key(rows, key.as_slice());
    let end = start_of_fields(rows, key.as_slice());
    end_range(rows, start, end, ended);
}

/// Ends what a put of a record ends beside the rows in whose place it goes: the string of a field's key.
pub(crate) fn end_string_of(rows: &mut Vec<Row>, id: &RecordId, ended: &mut Vec<EntryNo>)
    requires order { IsTrue (is_sorted record_cmp (records_of rows.old.items)) }
    requires room { vec_len ended.old + length (where_key record_cmp (is_string_of id.now) (table_of rows.old.items)) ≤ vec_capacity ended.old }
    ensures { TakesOut (is_string_of id.now) rows.old rows.new ended.old ended.new }
{
    match id {
        RecordId::Str(_) => {}
        RecordId::Field(key, _) => end_string(rows, key, ended),
    }
}

/// Ends a field of a key, if it is there.
fn end_field(rows: &mut Vec<Row>, key: &Key, field: &Field, ended: &mut Vec<EntryNo>)
    requires order { IsTrue (is_sorted record_cmp (records_of rows.old.items)) }
    requires room { vec_len ended.old + length (where_key record_cmp (λ other. eq_by_cmp record_cmp other (RecordId.Field key.now field.now)) (table_of rows.old.items)) ≤ vec_capacity ended.old }
    ensures { TakesOut (λ other. eq_by_cmp record_cmp other (RecordId.Field key.now field.now)) rows.old rows.new ended.old ended.new }
{
    let start = start_of_field(rows, key.as_slice(), field.as_slice());
    let end = end_of_field(rows, key.as_slice(), field.as_slice());
    end_range(rows, start, end, ended);
}

/// Removes the rows from `start` to before `end`, and appends their entries to `ended`.
pub(crate) fn end_range(rows: &mut Vec<Row>, start: usize, end: usize, ended: &mut Vec<EntryNo>)
    requires rise { start ≤ end }
    requires within { end ≤ vec_len rows.old }
    requires room { vec_len ended.old + end ≤ vec_capacity ended.old + start }
    ensures left { rows.new.items ≡ remove_range rows.old.items start end }
    ensures ended { numbers_of ended.new.items ≡ numbers_of ended.old.items ++ entries_of (table_of (slice_range rows.old.items start end)) }
    ensures capacity { vec_capacity rows.new ≡ vec_capacity rows.old }
    ensures capacity_for_ended { vec_capacity ended.old ≤ vec_capacity ended.new }
{
    for row in rows.drain(start..end) {
        ended.push(row.entry).unwrap();
    }
}

//! The row of a put, in the place of what it replaces.
ghost use Rattle.std.specs.Prelude.{◌≡◌, ℕ, List, ◌+◌, ◌<◌, ◌≤◌, ◌++◌, [], ◌∷◌, length, IsTrue, slice_range, vec_len, vec_capacity};
ghost use Rattle.std.specs.List.{replace_range};
ghost use Rattle.std.specs.FinMap.Entries.{is_sorted, where_key};
ghost use Rattle.kv_types.specs.declared.change.Change.TheVariants as kinds;
ghost use Rattle.kv_types.specs.Keyspace.{record_cmp};
ghost use Rattle.model.specs.Group.{ends_record};
ghost use Rattle.mv_keyspace.specs.Table.{entries_of};
ghost use Rattle.mv_keyspace.specs.Row.{IsRangeOf, PutsIn, numbers_of, records_of, table_of};

use crate::ending::{end_range, end_string_of};
use crate::row::Row;
use cmd_core::{end_of_field, end_of_key, start_of_field, start_of_key};
use kv_types::{EntryNo, RecordId};

/// Puts a row in the place of what its record replaces, and appends the entries of that to `ended`. A string replaces all records
/// of its key, a field itself and the string of its key.
pub(crate) fn put_row(rows: &mut Vec<Row>, row: Row, ended: &mut Vec<EntryNo>)
    requires order { IsTrue (is_sorted record_cmp (records_of rows.old.items)) }
    requires room { vec_len rows.old < vec_capacity rows.old }
    requires room_for_ended { (value : List ℕ) → vec_len ended.old + length (where_key record_cmp (ends_record (kinds.Put row.id value)) (table_of rows.old.items)) ≤ vec_capacity ended.old }
    ensures { (value : List ℕ) → PutsIn row (ends_record (kinds.Put row.id value)) rows.old rows.new ended.old ended.new }
{
    end_string_of(rows, &row.id, ended);
    let (start, end) = range_of(rows, &row.id);
    put_over(rows, start, end, row, ended);
}

/// The range of the rows in whose place a record goes, which is empty where there are none.
pub(crate) fn range_of(rows: &[Row], id: &RecordId) -> (usize, usize)
    requires order { IsTrue (is_sorted record_cmp (records_of rows.now)) }
    ensures { IsRangeOf id.now rows.now result.0 result.1 }
{
    match id {
        RecordId::Str(key) => (
            start_of_key(rows, key.as_slice()),
            end_of_key(rows, key.as_slice()),
        ),
        RecordId::Field(key, field) => (
            start_of_field(rows, key.as_slice(), field.as_slice()),
            end_of_field(rows, key.as_slice(), field.as_slice()),
        ),
    }
}

/// Puts a row in the place of those from `start` to before `end`. Nothing is moved where it takes the place of one.
fn put_over(rows: &mut Vec<Row>, start: usize, end: usize, row: Row, ended: &mut Vec<EntryNo>)
    requires rise { start ≤ end }
    requires within { end ≤ vec_len rows.old }
    requires room { vec_len rows.old < vec_capacity rows.old }
    requires room_for_ended { vec_len ended.old + end ≤ vec_capacity ended.old + start }
    ensures rows { rows.new.items ≡ replace_range rows.old.items start end (row ∷ []) }
    ensures ended { numbers_of ended.new.items ≡ numbers_of ended.old.items ++ entries_of (table_of (slice_range rows.old.items start end)) }
    ensures capacity { vec_capacity rows.old ≤ vec_capacity rows.new }
    ensures capacity_for_ended { vec_capacity ended.old ≤ vec_capacity ended.new }
{
    if start == end {
        rows.insert(start, row).unwrap();
    } else {
        ended.push(rows[start].entry).unwrap();
        rows[start] = row;
        end_range(rows, start + 1, end, ended);
    }
}

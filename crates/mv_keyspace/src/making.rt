//! The changes of a command or of a frame, made on the rows of a list.
ghost use Rattle.std.specs.Prelude.{◌≡◌, ℕ, ◌+◌, ◌≤◌, ◌++◌, List, length, IsTrue, IfOk, IfErr, vec_len, vec_capacity};
ghost use Rattle.std.specs.Vec.Iter.{into_iter_items, into_iter_len};
ghost use Rattle.std.specs.FinMap.Entries.{is_sorted};
ghost use Rattle.kv_types.specs.Keyspace.{record_cmp};
ghost use Rattle.model.specs.declared.group.Put.{Put};
ghost use Rattle.model.specs.Group.{change_of, put_of};
ghost use Rattle.mv_keyspace.specs.Table.{entries_of, place, puts_of};
ghost use Rattle.mv_keyspace.specs.Row.{records_of, table_of, rows_of_puts, numbers_of, ended_rows};

use crate::ending::{end_all, end_key, end_record};
use crate::putting::put_row;
use crate::row::{Row, row_of};
use kv_types::{EntryNo, Refusal};
use model::PlacedChange;
use std::alloc::Global;
use std::vec::IntoIter;

/// The rows that the puts among the changes make, in order.
pub(crate) fn stage(
    alloc: Global,
    changes: &[PlacedChange],
    position: u64,
) -> Result<Vec<Row>, Refusal>
    ensures ok { IfOk result (λ staged. table_of staged.items ≡ rows_of_puts position (puts_of changes.now)) }
    ensures cause { IfErr result (λ refusal. refusal ≡ Refusal.Memory) }
{
    let mut staged = Vec::new(alloc);
    for change in changes {
        if let PlacedChange::Put(put) = change {
            staged.push(row_of(put, position)?)?;
        }
    }
    Ok(staged)
}

/// Makes one change. A put takes the first of the rows that are staged.
pub(crate) fn make_change(
    rows: &mut Vec<Row>,
    change: &PlacedChange,
    staged: &mut IntoIter<Row>,
    ended: &mut Vec<EntryNo>,
)
    requires order { IsTrue (is_sorted record_cmp (records_of rows.old.items)) }
    requires staged { (position : ℕ) × (later : List Put) × (table_of (into_iter_items staged.old) ≡ rows_of_puts position (put_of change.now ++ later)) }
    requires room { vec_len rows.old + length (put_of change.now) ≤ vec_capacity rows.old }
    requires room_for_ended { vec_len ended.old + length (ended_rows (change_of change.now) (table_of rows.old.items)) ≤ vec_capacity ended.old }
    ensures table { (position : ℕ) (later : List Put) → table_of (into_iter_items staged.old) ≡ rows_of_puts position (put_of change.now ++ later)
        → (table_of rows.new.items ≡ place position (table_of rows.old.items) change.now) × (table_of (into_iter_items staged.new) ≡ rows_of_puts position later) }
    ensures ended { numbers_of ended.new.items ≡ numbers_of ended.old.items ++ entries_of (ended_rows (change_of change.now) (table_of rows.old.items)) }
    ensures len { vec_len ended.new + vec_len rows.new ≡ vec_len ended.old + vec_len rows.old + length (put_of change.now) }
    ensures left { into_iter_len staged.new + length (put_of change.now) ≡ into_iter_len staged.old }
    ensures fewer { vec_len rows.new ≤ vec_len rows.old + length (put_of change.now) }
    ensures capacity { vec_capacity rows.old ≤ vec_capacity rows.new }
    ensures capacity_for_ended { vec_capacity ended.old ≤ vec_capacity ended.new }
{
    match change {
        PlacedChange::Put(_) => {
            let row = staged.next().unwrap();
            put_row(rows, row, ended);
        }
        PlacedChange::Drop(id) => end_record(rows, id, ended),
        PlacedChange::DropKey(key) => end_key(rows, key, ended),
        PlacedChange::Clear => end_all(rows, ended),
    }
}

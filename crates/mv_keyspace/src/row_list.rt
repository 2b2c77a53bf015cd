//! Rows of one key, in a list with room for those that are to come.
ghost use Rattle.std.specs.Prelude.{◌≡◌, ℕ, ◌+◌, ◌<◌, ◌≤◌, ◌^◌, ◌++◌, List, [], ◌∷◌, length, IsTrue, IfNone, IfSome, IfOk, OnOk, vec_len, vec_capacity};
ghost use Rattle.std.specs.Vec.Iter.{into_iter_items};
ghost use Rattle.std.specs.FinMap.Entries.{is_sorted};
ghost use Rattle.kv_types.specs.Keyspace.{record_cmp};
ghost use Rattle.cmd_core.specs.Contents.{has_key};
ghost use Rattle.model.specs.declared.group.Put.{Put};
ghost use Rattle.model.specs.Group.{change_of, put_of};
ghost use Rattle.mv_keyspace.specs.Table.{entries_of, place};
ghost use Rattle.mv_keyspace.specs.Row.{ended_rows, numbers_of, records_of, rows_of_puts, table_of};
ghost use Rattle.mv_keyspace.specs.Version.{string_row};

use crate::making::make_change;
use crate::row::Row;
use crate::version::Version;
use cmd_core::has_in_order;
use kv_types::{EntryNo, RecordId};
use model::PlacedChange;
use std::alloc::{AllocError, Global};
use std::vec::IntoIter;

/// The rows of one key, in the order of records: one for each field of its hash, or its string until the slot is settled.
#[derive(Debug, Drop)]
pub(crate) struct RowList {
    rows: Vec<Row>,
    /// How many rows are to come, for which there is room.
    awaited: usize,
    ghost in_order: { IsTrue (is_sorted record_cmp (records_of rows.items)) },
    ghost has_room: { vec_len rows + awaited ≤ vec_capacity rows },
}

impl RowList {
    /// No rows, with room for so many.
    pub(crate) fn awaiting(alloc: Global, awaited: usize) -> Result<RowList, AllocError>
        ensures rows { IfOk result (λ list. list.rows.items ≡ []) }
        ensures awaited { IfOk result (λ list. list.awaited ≡ awaited) }
    {
        let mut rows = Vec::new(alloc);
        rows.reserve_exact(awaited)?;
        Ok(RowList { rows, awaited })
    }

    pub(crate) fn rows(&self) -> &[Row]
        ensures rows { result.now ≡ self.now.rows.items }
        ensures few { length result.now < 2 ^ 63 }
        ensures order { IsTrue (is_sorted record_cmp (records_of self.now.rows.items)) }
    {
        &self.rows
    }

    /// Whether there is a record of a key.
    pub(crate) fn has(&self, key: &[u8]) -> bool
        ensures { result ≡ has_key (records_of self.now.rows.items) key.now }
    {
        has_in_order(&self.rows, key)
    }

    /// Makes room for one row more than are awaited. A first row has no room beside it, as a hash may keep to one field.
    pub(crate) fn expect_row(&mut self) -> Result<(), AllocError>
        ensures rows { self.new.rows.items ≡ self.old.rows.items }
        ensures awaited { OnOk result (self.new.awaited ≡ self.old.awaited + 1) }
    {
        if self.rows.is_empty() {
            self.rows.reserve_exact(self.awaited + 1)?;
        } else {
            self.rows.reserve(self.awaited + 1)?;
        }
        self.awaited += 1;
        Ok(())
    }

    /// Puts a row that is awaited behind the others.
    pub(crate) fn put_last(&mut self, row: Row)
        requires order { IsTrue (is_sorted record_cmp (records_of (self.old.rows.items ++ row ∷ []))) }
        requires awaited { 1 ≤ self.old.awaited }
        ensures rows { self.new.rows.items ≡ self.old.rows.items ++ row ∷ [] }
        ensures awaited { self.new.awaited + 1 ≡ self.old.awaited }
    {
        self.awaited -= 1;
        self.rows.push(row).unwrap();
    }

    /// Awaits no row any more.
    pub(crate) fn settle(&mut self)
        ensures { self.new.rows.items ≡ self.old.rows.items }
    {
        self.awaited = 0;
    }

    /// Takes the only row out, where it is a string.
    pub(crate) fn take_string(&mut self) -> Option<Version>
        ensures none { IfNone result (self.new.rows.items ≡ self.old.rows.items) }
        ensures some { IfSome result (λ version. (own : List ℕ) × (self.old.rows.items ≡ string_row own version ∷ [])) }
    {
        if self.has_string_only() {
            let row = self.rows.pop().unwrap();
            Some(Version::of_row(row))
        } else {
            None
        }
    }

    /// Whether there is one row, and it is a string.
    fn has_string_only(&self) -> bool
        ensures { IsTrue result → (own : List ℕ) × (row : Row) × (self.now.rows.items ≡ row ∷ []) × (row.id ≡ RecordId.Str own) }
    {
        match self.rows.as_slice() {
            [row] => match row.id {
                RecordId::Str(_) => true,
                RecordId::Field(..) => false,
            },
            _ => false,
        }
    }

    /// Makes one change of the key. A put takes the first of the rows that are staged, and the room of one that is awaited.
    pub(crate) fn change(
        &mut self,
        change: &PlacedChange,
        staged: &mut IntoIter<Row>,
        ended: &mut Vec<EntryNo>,
    )
        requires staged { (position : ℕ) × (later : List Put) × (table_of (into_iter_items staged.old) ≡ rows_of_puts position (put_of change.now ++ later)) }
        requires awaited { length (put_of change.now) ≤ self.old.awaited }
        requires room_for_ended { vec_len ended.old + length (ended_rows (change_of change.now) (table_of self.old.rows.items)) ≤ vec_capacity ended.old }
        ensures table { (position : ℕ) (later : List Put) → table_of (into_iter_items staged.old) ≡ rows_of_puts position (put_of change.now ++ later)
            → (table_of self.new.rows.items ≡ place position (table_of self.old.rows.items) change.now) × (table_of (into_iter_items staged.new) ≡ rows_of_puts position later) }
        ensures ended { numbers_of ended.new.items ≡ numbers_of ended.old.items ++ entries_of (ended_rows (change_of change.now) (table_of self.old.rows.items)) }
        ensures awaited { self.new.awaited + length (put_of change.now) ≡ self.old.awaited }
        ensures capacity_for_ended { vec_capacity ended.old ≤ vec_capacity ended.new }
    {
        self.awaited -= count_puts(change);
        make_change(&mut self.rows, change, staged, ended);
    }
}

/// 1 for a put, and 0 for any other change.
fn count_puts(change: &PlacedChange) -> usize
    ensures { result ≡ length (put_of change.now) }
{
    match change {
        PlacedChange::Put(_) => 1,
        _ => 0,
    }
}

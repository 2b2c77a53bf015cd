//! The live rows of a page, as they are gathered in their order.
ghost use Rattle.std.specs.Prelude.{◌≡◌, ◌++◌, ◌∷◌, [], ◌<◌, ◌≤◌, IsTrue, List, length, nat_lt, OnOk, IfOk, drop, take};
ghost use Rattle.std.specs.Option.{option_copied};
ghost use Rattle.std.specs.FinMap.Entries.{is_sorted};
ghost use Rattle.cmd_core.specs.Record.{SplitsAt, is_up_to};
ghost use Rattle.kv_types.specs.Keyspace.{record_cmp};
ghost use Rattle.mv_keyspace.specs.Paging.{filled, is_after, room_left, room_less, rows_after, size_of};
ghost use Rattle.mv_keyspace.specs.Row.{records_of, table_of};
ghost use Rattle.mv_keyspace.specs.Slot.{rows_of};
ghost use Rattle.mv_keyspace.specs.Slots.{AreSlots, rows_in};
ghost use Rattle.mv_keyspace.specs.Versions.{begun_at};

use crate::paging::{is_after, put_size};
use crate::row::Row;
use crate::sharing::shared;
use crate::slot::Slot;
use cmd_core::{end_of_field, start_of_fields};
use kv_types::{Key, RecordId};
use std::alloc::{AllocError, Global};
use std::collections::BTreeMap;
use std::collections::btree_map::Range;

/// Live rows in their order, which share their bytes with those of the keyspace, until they have more than so many bytes together.
#[derive(Debug, Drop)]
pub(crate) struct PageRows {
    rows: Vec<Row>,
    /// How many bytes they may have.
    bytes: u64,
    /// How many of these are left, or `None` once they have more.
    room: Option<u64>,
    ghost counted: { room ≡ room_left bytes (table_of rows.items) },
}

impl PageRows {
    /// No rows yet, which may have so many bytes.
    pub(crate) fn new(alloc: Global, bytes: u64) -> PageRows
        ensures rows { result.rows.items ≡ [] }
        ensures bytes { result.bytes ≡ bytes }
    {
        PageRows {
            rows: Vec::new(alloc),
            bytes,
            room: Some(bytes),
        }
    }

    /// The rows.
    pub(crate) fn into_rows(self) -> Vec<Row>
        ensures { result ≡ self.rows }
    {
        let PageRows { rows, .. } = self;
        rows
    }

    /// Whether they have more bytes than they may.
    pub(crate) fn is_full(&self) -> bool
        ensures { result ≡ nat_lt self.now.bytes (size_of (table_of self.now.rows.items)) }
    {
        self.room.is_none()
    }

    /// Puts a row behind the others.
    fn push(&mut self, row: Row) -> Result<(), AllocError>
        ensures rows { OnOk result (self.new.rows.items ≡ self.old.rows.items ++ row ∷ []) }
        ensures bytes { self.new.bytes ≡ self.old.bytes }
    {
        let size = put_size(&row);
        self.rows.push(row)?;
        self.room = less(self.room, size);
        Ok(())
    }

    /// Takes those of the rows that had begun at a position, until there are enough.
    fn take_begun(&mut self, rows: &[Row], position: u64) -> Result<(), AllocError>
        ensures rows { OnOk result (table_of self.new.rows.items ≡ filled self.old.bytes (table_of self.old.rows.items) (begun_at position (table_of rows.now))) }
        ensures bytes { self.new.bytes ≡ self.old.bytes }
    {
        for row in rows {
            if self.is_full() {
                return Ok(());
            }
            if row.position <= position {
                self.push(shared(row)?)?;
            }
        }
        Ok(())
    }

    /// Takes those of the rows that come behind a record and had begun at a position, until there are enough.
    pub(crate) fn take_after(
        &mut self,
        rows: &[Row],
        position: u64,
        after: Option<&RecordId>,
    ) -> Result<(), AllocError>
        requires order { IsTrue (is_sorted record_cmp (records_of rows.now)) }
        ensures rows { OnOk result (table_of self.new.rows.items ≡ filled self.old.bytes (table_of self.old.rows.items) (begun_at position (rows_after (option_copied after.entry) (table_of rows.now)))) }
        ensures bytes { self.new.bytes ≡ self.old.bytes }
    {
        let start = start_after(rows, after);
        self.take_begun(&rows[start..], position)
    }

    /// Takes a row, where it comes behind a record.
    fn take_one(&mut self, row: Row, after: Option<&RecordId>) -> Result<(), AllocError>
        ensures rows { OnOk result (table_of self.new.rows.items ≡ filled self.old.bytes (table_of self.old.rows.items) (rows_after (option_copied after.entry) (table_of (row ∷ [])))) }
        ensures bytes { self.new.bytes ≡ self.old.bytes }
    {
        if !self.is_full() && is_after(after, &row.id) {
            self.push(row)?;
        }
        Ok(())
    }

    /// Takes those rows of the slot of a key that come behind a record and had begun at a position, until there are enough.
    fn take_slot(
        &mut self,
        key: &Key,
        slot: &Slot,
        position: u64,
        after: Option<&RecordId>,
    ) -> Result<(), AllocError>
        ensures rows { OnOk result (table_of self.new.rows.items ≡ filled self.old.bytes (table_of self.old.rows.items) (begun_at position (rows_after (option_copied after.entry) (table_of (rows_of key.now slot.now))))) }
        ensures bytes { self.new.bytes ≡ self.old.bytes }
    {
        match slot {
            Slot::Vacant(_) => Ok(()),
            Slot::Str(_, version) => if version.position <= position {
                self.take_one(version.row(key)?, after)
            } else {
                Ok(())
            },
            Slot::Rows(list) => self.take_after(list.rows(), position, after),
        }
    }

    /// Takes those rows of the slots that come behind a record and had begun at a position, until there are enough.
    fn take_slots(
        &mut self,
        slots: Range<'_, Key, Slot>,
        position: u64,
        after: Option<&RecordId>,
    ) -> Result<(), AllocError>
        ensures rows { OnOk result (table_of self.new.rows.items ≡ filled self.old.bytes (table_of self.old.rows.items) (begun_at position (rows_after (option_copied after.entry) (table_of (rows_in slots.entry))))) }
        ensures bytes { self.new.bytes ≡ self.old.bytes }
    {
        for entry in slots {
            if self.is_full() {
                return Ok(());
            }
            self.take_slot(entry.0, entry.1, position, after)?;
        }
        Ok(())
    }

    /// Takes those rows of all slots that come behind a record and had begun at a position, until there are enough. The slots before that of
    /// the record are not looked at.
    pub(crate) fn take_all(
        &mut self,
        slots: &BTreeMap<Key, Slot>,
        position: u64,
        after: Option<&RecordId>,
    ) -> Result<(), AllocError>
        requires { AreSlots slots.now.entries }
        ensures rows { OnOk result (table_of self.new.rows.items ≡ filled self.old.bytes (table_of self.old.rows.items) (begun_at position (rows_after (option_copied after.entry) (table_of (rows_in slots.now.entries))))) }
        ensures bytes { self.new.bytes ≡ self.old.bytes }
    {
        match after {
            Some(id) => self.take_slots(slots.range(id.key()..), position, after),
            None => self.take_slots(slots.range(..), position, after),
        }
    }
}

/// What is left of a room, or `None` where there is less.
fn less(room: Option<u64>, size: u64) -> Option<u64>
    ensures { result ≡ room_less room size }
{
    match room {
        Some(room) if size <= room => Some(room - size),
        _ => None,
    }
}

/// The index of the first of the rows that come behind a record.
fn start_after(rows: &[Row], after: Option<&RecordId>) -> usize
    requires order { IsTrue (is_sorted record_cmp (records_of rows.now)) }
    ensures within { result ≤ length rows.now }
    ensures rows { table_of (drop result rows.now) ≡ rows_after (option_copied after.entry) (table_of rows.now) }
{
    match after {
        Some(id) => end_of_record(rows, id),
        None => 0,
    }
}

/// The index of the first of the rows that come behind this record.
fn end_of_record(rows: &[Row], id: &RecordId) -> usize
    requires order { IsTrue (is_sorted record_cmp (records_of rows.now)) }
    ensures { SplitsAt (λ (row : Row). is_up_to id.now row.id) rows.now result }
{
    match id {
        RecordId::Str(key) => start_of_fields(rows, key.as_slice()),
        RecordId::Field(key, field) => end_of_field(rows, key.as_slice(), field.as_slice()),
    }
}

//! What a key holds, as the map keeps it.
ghost use Rattle.std.specs.Prelude.{◌≡◌, ℕ, ◌+◌, ◌≤◌, ◌++◌, List, [], ◌∷◌, false, ◌||◌, Some, length, IsTrue, IfOk, OnOk, vec_len, vec_capacity};
ghost use Rattle.std.specs.Vec.Iter.{into_iter_items};
ghost use Rattle.std.specs.FinMap.Entries.{is_sorted};
ghost use Rattle.kv_types.specs.Keyspace.{key_of, record_cmp};
ghost use Rattle.model.specs.declared.group.Put.{Put};
ghost use Rattle.model.specs.Group.{change_of, put_of};
ghost use Rattle.mv_keyspace.specs.Keys.{changed_key};
ghost use Rattle.mv_keyspace.specs.Row.{ended_rows, numbers_of, records_of, rows_of_puts, table_of};
ghost use Rattle.mv_keyspace.specs.Slot.{awaited_in, is_field, is_list, makes_field, rows_of};
ghost use Rattle.mv_keyspace.specs.Slots.{AreOfKey};
ghost use Rattle.mv_keyspace.specs.Table.{entries_of, place};
ghost use Rattle.mv_keyspace.specs.Version.{string_row};

use crate::row::Row;
use crate::row_list::RowList;
use crate::version::Version;
use kv_types::{EntryNo, Key, RecordId};
use model::PlacedChange;
use std::alloc::{AllocError, Global};
use std::vec::IntoIter;

/// What a key holds, and how many puts of it are awaited.
#[derive(Debug, Drop)]
pub(crate) enum Slot {
    /// Nothing.
    Vacant(u32),
    /// A string. No field is awaited, and a put of another string takes no memory.
    Str(u32, Version),
    /// The fields of a hash, in a list. A string may stand there, or nothing, until the slot is settled.
    Rows(RowList),
}

impl Slot {
    /// Awaits the put of a record of the key. Room is made for the row of a field, and nothing for that of a string on its own.
    pub(crate) fn expect(&mut self, alloc: Global, id: &RecordId) -> Result<(), AllocError>
        ensures rows { rows_of (key_of id.now) self.new ≡ rows_of (key_of id.now) self.old }
        ensures awaited { OnOk result (awaited_in self.new ≡ awaited_in self.old + 1) }
        ensures list { OnOk result (is_list self.new ≡ (is_list self.old || is_field id.now)) }
    {
        match id {
            RecordId::Str(_) => self.expect_string(),
            RecordId::Field(key, _) => self.expect_field(alloc, key),
        }
    }

    /// Awaits the put of a string.
    fn expect_string(&mut self) -> Result<(), AllocError>
        ensures rows { (key : List ℕ) → rows_of key self.new ≡ rows_of key self.old }
        ensures awaited { OnOk result (awaited_in self.new ≡ awaited_in self.old + 1) }
        ensures list { is_list self.new ≡ is_list self.old }
    {
        match self {
            Slot::Vacant(awaited) => *awaited = one_more(*awaited)?,
            Slot::Str(awaited, _) => *awaited = one_more(*awaited)?,
            Slot::Rows(list) => list.expect_row()?,
        }
        Ok(())
    }

    /// Awaits the put of a field, for which there is a list then, with the string that there may be.
    fn expect_field(&mut self, alloc: Global, key: &Key) -> Result<(), AllocError>
        ensures rows { rows_of key.now self.new ≡ rows_of key.now self.old }
        ensures awaited { OnOk result (awaited_in self.new ≡ awaited_in self.old + 1) }
        ensures list { OnOk result (IsTrue (is_list self.new)) }
    {
        match self {
            Slot::Vacant(awaited) => {
                let mut list = RowList::awaiting(alloc, *awaited as usize)?;
                list.expect_row()?;
                *self = Slot::Rows(list);
            }
            Slot::Str(awaited, version) => {
                let mut list = listed(alloc, key, version, *awaited as usize)?;
                list.expect_row()?;
                *self = Slot::Rows(list);
            }
            Slot::Rows(list) => list.expect_row()?,
        }
        Ok(())
    }

    /// Puts a row behind the others, which nothing awaited.
    pub(crate) fn add_last(&mut self, alloc: Global, row: Row) -> Result<(), AllocError>
        requires { IsTrue (is_sorted record_cmp (records_of (rows_of (key_of row.id) self.old ++ row ∷ []))) }
        ensures { OnOk result (rows_of (key_of row.id) self.new ≡ rows_of (key_of row.id) self.old ++ row ∷ []) }
    {
        self.expect(alloc, &row.id)?;
        self.put_last(row);
        Ok(())
    }

    /// Puts a row that is awaited behind the others.
    fn put_last(&mut self, row: Row)
        requires order { IsTrue (is_sorted record_cmp (records_of (rows_of (key_of row.id) self.old ++ row ∷ []))) }
        requires awaited { 1 ≤ awaited_in self.old }
        requires list { IsTrue (is_field row.id) → IsTrue (is_list self.old) }
        ensures { rows_of (key_of row.id) self.new ≡ rows_of (key_of row.id) self.old ++ row ∷ [] }
    {
        match self {
            Slot::Vacant(awaited) => {
                let awaited = *awaited - 1;
                *self = Slot::Str(awaited, Version::of_row(row));
            }
            Slot::Str(..) => unreachable!(),
            Slot::Rows(list) => list.put_last(row),
        }
    }

    /// Awaits no put any more. A list with a string alone is given up, and the string held in place.
    pub(crate) fn settle(&mut self)
        ensures { (key : List ℕ) → AreOfKey key (table_of (rows_of key self.old)) → rows_of key self.new ≡ rows_of key self.old }
    {
        match self {
            Slot::Vacant(awaited) => *awaited = 0,
            Slot::Str(awaited, _) => *awaited = 0,
            Slot::Rows(list) => {
                list.settle();
                if let Some(version) = list.take_string() {
                    *self = Slot::Str(0, version);
                }
            }
        }
    }

    /// Makes one change of the key. A put takes the first of the rows that are staged, and the room of one that is awaited.
    pub(crate) fn change(
        &mut self,
        change: &PlacedChange,
        staged: &mut IntoIter<Row>,
        ended: &mut Vec<EntryNo>,
    )
        requires staged { (position : ℕ) × (later : List Put) × (table_of (into_iter_items staged.old) ≡ rows_of_puts position (put_of change.now ++ later)) }
        requires awaited { length (put_of change.now) ≤ awaited_in self.old }
        requires list { IsTrue (makes_field change.now) → IsTrue (is_list self.old) }
        requires room_for_ended { (key : List ℕ) × (changed_key (change_of change.now) ≡ Some key)
            × (vec_len ended.old + length (ended_rows (change_of change.now) (table_of (rows_of key self.old))) ≤ vec_capacity ended.old) }
        ensures table { (key : List ℕ) (position : ℕ) (later : List Put) → changed_key (change_of change.now) ≡ Some key
            → table_of (into_iter_items staged.old) ≡ rows_of_puts position (put_of change.now ++ later)
            → (table_of (rows_of key self.new) ≡ place position (table_of (rows_of key self.old)) change.now) × (table_of (into_iter_items staged.new) ≡ rows_of_puts position later) }
        ensures ended { (key : List ℕ) → changed_key (change_of change.now) ≡ Some key
            → numbers_of ended.new.items ≡ numbers_of ended.old.items ++ entries_of (ended_rows (change_of change.now) (table_of (rows_of key self.old))) }
        ensures awaited { awaited_in self.new + length (put_of change.now) ≡ awaited_in self.old }
        ensures list { is_list self.new ≡ is_list self.old }
        ensures capacity_for_ended { vec_capacity ended.old ≤ vec_capacity ended.new }
    {
        match self {
            Slot::Rows(list) => list.change(change, staged, ended),
            Slot::Vacant(_) | Slot::Str(..) => self.change_string(change, staged, ended),
        }
    }

    /// Makes one change of the key, where there is no list.
    fn change_string(
        &mut self,
        change: &PlacedChange,
        staged: &mut IntoIter<Row>,
        ended: &mut Vec<EntryNo>,
    )
        requires plain { is_list self.old ≡ false }
        requires staged { (position : ℕ) × (later : List Put) × (table_of (into_iter_items staged.old) ≡ rows_of_puts position (put_of change.now ++ later)) }
        requires awaited { length (put_of change.now) ≤ awaited_in self.old }
        requires string { makes_field change.now ≡ false }
        requires room_for_ended { (key : List ℕ) × (changed_key (change_of change.now) ≡ Some key)
            × (vec_len ended.old + length (ended_rows (change_of change.now) (table_of (rows_of key self.old))) ≤ vec_capacity ended.old) }
        ensures table { (key : List ℕ) (position : ℕ) (later : List Put) → changed_key (change_of change.now) ≡ Some key
            → table_of (into_iter_items staged.old) ≡ rows_of_puts position (put_of change.now ++ later)
            → (table_of (rows_of key self.new) ≡ place position (table_of (rows_of key self.old)) change.now) × (table_of (into_iter_items staged.new) ≡ rows_of_puts position later) }
        ensures ended { (key : List ℕ) → changed_key (change_of change.now) ≡ Some key
            → numbers_of ended.new.items ≡ numbers_of ended.old.items ++ entries_of (ended_rows (change_of change.now) (table_of (rows_of key self.old))) }
        ensures awaited { awaited_in self.new + length (put_of change.now) ≡ awaited_in self.old }
        ensures plain { is_list self.new ≡ false }
        ensures capacity_for_ended { vec_capacity ended.old ≤ vec_capacity ended.new }
    {
        match change {
            PlacedChange::Put(_) => {
                let row = staged.next().unwrap();
                self.put_string(row, ended);
            }
            PlacedChange::Drop(id) => match id {
                RecordId::Str(_) => {
                    self.end_string(ended);
                }
                RecordId::Field(..) => {}
            },
            PlacedChange::DropKey(_) => {
                self.end_string(ended);
            }
            PlacedChange::Clear => unreachable!(),
        }
    }

    /// Holds the string of a row that is awaited, and ends the one that there may be.
    fn put_string(&mut self, row: Row, ended: &mut Vec<EntryNo>)
        requires plain { is_list self.old ≡ false }
        requires awaited { 1 ≤ awaited_in self.old }
        requires room_for_ended { (key : List ℕ) × (vec_len ended.old + length (rows_of key self.old) ≤ vec_capacity ended.old) }
        ensures rows { (key : List ℕ) → row.id ≡ RecordId.Str key → rows_of key self.new ≡ row ∷ [] }
        ensures ended { (key : List ℕ) → numbers_of ended.new.items ≡ numbers_of ended.old.items ++ entries_of (table_of (rows_of key self.old)) }
        ensures awaited { awaited_in self.new + 1 ≡ awaited_in self.old }
        ensures plain { is_list self.new ≡ false }
        ensures capacity_for_ended { vec_capacity ended.old ≤ vec_capacity ended.new }
    {
        let awaited = self.end_string(ended);
        *self = Slot::Str(awaited - 1, Version::of_row(row));
    }

    /// Ends the string, if there is one. Returns how many puts are awaited.
    fn end_string(&mut self, ended: &mut Vec<EntryNo>) -> u32
        requires plain { is_list self.old ≡ false }
        requires room_for_ended { (key : List ℕ) × (vec_len ended.old + length (rows_of key self.old) ≤ vec_capacity ended.old) }
        ensures value { result ≡ awaited_in self.old }
        ensures vacant { self.new ≡ Slot.Vacant result }
        ensures ended { (key : List ℕ) → numbers_of ended.new.items ≡ numbers_of ended.old.items ++ entries_of (table_of (rows_of key self.old)) }
        ensures capacity_for_ended { vec_capacity ended.old ≤ vec_capacity ended.new }
    {
        match self {
            Slot::Vacant(awaited) => *awaited,
            Slot::Str(awaited, version) => {
                let awaited = *awaited;
                ended.push(version.entry).unwrap();
                *self = Slot::Vacant(awaited);
                awaited
            }
            Slot::Rows(_) => unreachable!(),
        }
    }
}

/// One more than are awaited.
fn one_more(awaited: u32) -> Result<u32, AllocError>
    ensures { IfOk result (λ more. more ≡ awaited + 1) }
{
    match awaited.checked_add(1) {
        Some(more) => Ok(more),
        None => Err(AllocError),
    }
}

/// A list with the string of a key, and room for so many rows beside it.
fn listed(
    alloc: Global,
    key: &Key,
    version: &Version,
    awaited: usize,
) -> Result<RowList, AllocError>
    ensures rows { IfOk result (λ list. list.rows.items ≡ string_row key.now version.now ∷ []) }
    ensures awaited { IfOk result (λ list. list.awaited ≡ awaited) }
{
    let row = version.row(key)?;
    let mut list = RowList::awaiting(alloc, awaited)?;
    list.expect_row()?;
    list.put_last(row);
    Ok(list)
}

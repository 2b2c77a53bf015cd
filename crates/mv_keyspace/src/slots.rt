//! The records of all keys, one slot a key.
ghost use Rattle.std.specs.Prelude.{◌≡◌, ℕ, ◌+◌, ◌≤◌, ◌++◌, List, [], ◌∷◌, ◌||◌, cond, length, IsTrue, OnOk, IfErr, None, Some, vec_len, vec_capacity};
ghost use Rattle.std.specs.BTreeMap.{is_at};
ghost use Rattle.std.specs.Vec.Iter.{into_iter_items};
ghost use Rattle.kv_types.specs.declared.refusal.Refusal.TheVariants.{Memory};
ghost use Rattle.kv_types.specs.Keyspace.{bytes_cmp, key_of};
ghost use Rattle.cmd_core.specs.Contents.{has_key};
ghost use Rattle.model.specs.declared.group.Put.{Put};
ghost use Rattle.model.specs.Group.{change_of, put_of};
ghost use Rattle.mv_keyspace.specs.Keys.{changed_key};
ghost use Rattle.mv_keyspace.specs.Table.{entries_of, place};
ghost use Rattle.mv_keyspace.specs.Row.{ended_rows, numbers_of, records_of, rows_of_puts, table_of};
ghost use Rattle.mv_keyspace.specs.Slot.{makes_field};
ghost use Rattle.mv_keyspace.specs.Slots.{AreSlots, awaited_at, is_field_of, is_list_at, rows_at, rows_in, slot_at};

use crate::reading::{count_in, has_in};
use crate::row::Row;
use crate::slot::Slot;
use kv_types::{EntryNo, Key, RecordId, Refusal};
use model::PlacedChange;
use std::alloc::Global;
use std::collections::BTreeMap;
use std::vec::IntoIter;

/// How many rows a key has.
pub(crate) fn count_at(slots: &BTreeMap<Key, Slot>, key: &Key) -> usize
    ensures { result ≡ length (rows_at key.now slots.now.entries) }
{
    match slots.get(key) {
        Some(slot) => count_in(slot),
        None => 0,
    }
}

/// Awaits the put of one record more, for which room is made.
pub(crate) fn expect_row(
    alloc: Global,
    slots: &mut BTreeMap<Key, Slot>,
    id: &RecordId,
) -> Result<(), Refusal>
    requires { AreSlots slots.old.entries }
    ensures slots { AreSlots slots.new.entries }
    ensures rows { rows_in slots.new.entries ≡ rows_in slots.old.entries }
    ensures awaited { OnOk result ((q : List ℕ) → awaited_at q slots.new.entries ≡ awaited_at q slots.old.entries + cond (is_at (bytes_cmp (key_of id.now)) q) 1 0) }
    ensures lists { OnOk result ((q : List ℕ) → is_list_at q slots.new.entries ≡ (is_list_at q slots.old.entries || is_field_of q id.now)) }
    ensures cause { IfErr result (λ refusal. refusal ≡ Memory) }
{
    match slots.get_mut(id.key()) {
        Some(slot) => Ok(slot.expect(alloc, id)?),
        None => make_slot(alloc, slots, id),
    }
}

/// Makes the slot of a key that has none, which awaits the put of this record.
fn make_slot(alloc: Global, slots: &mut BTreeMap<Key, Slot>, id: &RecordId) -> Result<(), Refusal>
    requires slots { AreSlots slots.old.entries }
    requires missing { slot_at (key_of id.now) slots.old.entries ≡ None }
    ensures slots { AreSlots slots.new.entries }
    ensures rows { rows_in slots.new.entries ≡ rows_in slots.old.entries }
    ensures awaited { OnOk result ((q : List ℕ) → awaited_at q slots.new.entries ≡ awaited_at q slots.old.entries + cond (is_at (bytes_cmp (key_of id.now)) q) 1 0) }
    ensures lists { OnOk result ((q : List ℕ) → is_list_at q slots.new.entries ≡ (is_list_at q slots.old.entries || is_field_of q id.now)) }
    ensures cause { IfErr result (λ refusal. refusal ≡ Memory) }
{
    let mut slot = Slot::Vacant(0);
    slot.expect(alloc, id)?;
    match slots.insert(id.key().clone()?, slot) {
        Ok(_) => Ok(()),
        Err(_) => Err(Refusal::Memory),
    }
}

/// Lets the slot of a key await no put any more, and takes it out where it has none.
pub(crate) fn settle(slots: &mut BTreeMap<Key, Slot>, key: &Key)
    requires { AreSlots slots.old.entries }
    ensures slots { AreSlots slots.new.entries }
    ensures rows { rows_in slots.new.entries ≡ rows_in slots.old.entries }
{
    if settle_slot(slots, key) {
        slots.remove(key);
    }
}

/// Lets the slot of a key await no put any more, and says whether there is one that has none.
fn settle_slot(slots: &mut BTreeMap<Key, Slot>, key: &Key) -> bool
    requires { AreSlots slots.old.entries }
    ensures slots { AreSlots slots.new.entries }
    ensures rows { rows_in slots.new.entries ≡ rows_in slots.old.entries }
    ensures empty { IsTrue result → rows_at key.now slots.new.entries ≡ [] }
{
    match slots.get_mut(key) {
        Some(slot) => {
            slot.settle();
            count_in(slot) == 0
        }
        None => false,
    }
}

/// Makes one change of a key, as `Slot::change` does. Says whether the key had records before it, and whether it has some after it.
pub(crate) fn change_slot(
    slots: &mut BTreeMap<Key, Slot>,
    key: &Key,
    change: &PlacedChange,
    staged: &mut IntoIter<Row>,
    ended: &mut Vec<EntryNo>,
) -> (bool, bool)
    requires slots { AreSlots slots.old.entries }
    requires key { changed_key (change_of change.now) ≡ Some key.now }
    requires staged { (position : ℕ) × (later : List Put) × (table_of (into_iter_items staged.old) ≡ rows_of_puts position (put_of change.now ++ later)) }
    requires awaited { length (put_of change.now) ≤ awaited_at key.now slots.old.entries }
    requires lists { IsTrue (makes_field change.now) → IsTrue (is_list_at key.now slots.old.entries) }
    requires room_for_ended { vec_len ended.old + length (ended_rows (change_of change.now) (table_of (rows_in slots.old.entries))) ≤ vec_capacity ended.old }
    ensures slots { AreSlots slots.new.entries }
    ensures table { (position : ℕ) (later : List Put) → table_of (into_iter_items staged.old) ≡ rows_of_puts position (put_of change.now ++ later)
        → (table_of (rows_in slots.new.entries) ≡ place position (table_of (rows_in slots.old.entries)) change.now) × (table_of (into_iter_items staged.new) ≡ rows_of_puts position later) }
    ensures ended { numbers_of ended.new.items ≡ numbers_of ended.old.items ++ entries_of (ended_rows (change_of change.now) (table_of (rows_in slots.old.entries))) }
    ensures awaited { (q : List ℕ) → awaited_at q slots.new.entries + cond (is_at (bytes_cmp key.now) q) (length (put_of change.now)) 0 ≡ awaited_at q slots.old.entries }
    ensures lists { (q : List ℕ) → is_list_at q slots.new.entries ≡ is_list_at q slots.old.entries }
    ensures capacity_for_ended { vec_capacity ended.old ≤ vec_capacity ended.new }
    ensures had { result.0 ≡ has_key (records_of (rows_in slots.old.entries)) key.now }
    ensures has { result.1 ≡ has_key (records_of (rows_in slots.new.entries)) key.now }
{
    match slots.get_mut(key) {
        Some(slot) => {
            let had = has_in(slot, key.as_slice());
            slot.change(change, staged, ended);
            (had, has_in(slot, key.as_slice()))
        }
        None => (false, false),
    }
}

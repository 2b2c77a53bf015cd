//! The changes of a command or of a frame, each made on the slot of its key.
ghost use Rattle.std.specs.Prelude.{◌≡◌, ℕ, ◌+◌, ◌<◌, ◌≤◌, ◌^◌, ◌++◌, List, cond, length, IsTrue, IfErr, IfOk, OnErr, OnOk, IsSome, vec_len, vec_capacity};
ghost use Rattle.std.specs.Vec.Iter.{into_iter_items};
ghost use Rattle.kv_types.specs.declared.place.EntryNo.{EntryNo};
ghost use Rattle.kv_types.specs.declared.refusal.Refusal.TheVariants.{Memory};
ghost use Rattle.cmd_core.specs.Contents.{keys_of};
ghost use Rattle.model.specs.Group.{change_of, put_of};
ghost use Rattle.model.specs.declared.group.Put.{Put};
ghost use Rattle.mv_keyspace.specs.Keys.{changed_key};
ghost use Rattle.mv_keyspace.specs.Table.{entries_of, place, place_all, puts_of, AreEnded, AreFresh, IsLawful};
ghost use Rattle.mv_keyspace.specs.Row.{ended_rows, numbers_of, records_of, rows_of_puts, table_of};
ghost use Rattle.mv_keyspace.specs.Slots.{AreKeyed, AreSlots, awaited_at, awaits, awaits_of, ends, ends_at_once, is_list_at, makes_field_of, makes_fields, rows_in};

use crate::counting::key_changed;
use crate::making::stage;
use crate::row::Row;
use crate::slot::Slot;
use crate::slots::{change_slot, count_at, expect_row, settle};
use kv_types::{EntryNo, Key, RecordId, Refusal};
use model::PlacedChange;
use std::alloc::Global;
use std::collections::BTreeMap;
use std::vec::IntoIter;

/// Makes all changes, none of which ends the records of all keys, and returns how many keys there are then; there were `keys`.
/// The entries that they ended are appended to those in `ended`. Refused with `Memory` where a growth was refused, and then nothing has
/// changed.
pub(crate) fn change_keys(
    alloc: Global,
    slots: &mut BTreeMap<Key, Slot>,
    keys: u64,
    changes: &[PlacedChange],
    position: u64,
    ended: &mut Vec<EntryNo>,
) -> Result<u64, Refusal>
    requires slots { AreSlots slots.old.entries }
    requires keyed { AreKeyed changes.now }
    requires lawful { IsLawful (table_of (rows_in slots.old.entries)) }
    requires fresh { AreFresh (table_of (rows_in slots.old.entries)) (puts_of changes.now) }
    requires counted { keys ≡ length (keys_of (records_of (rows_in slots.old.entries))) }
    ensures slots { AreSlots slots.new.entries }
    ensures table { OnOk result (table_of (rows_in slots.new.entries) ≡ place_all position (table_of (rows_in slots.old.entries)) changes.now) }
    ensures ended { OnOk result ((more : List EntryNo) × (ended.new.items ≡ ended.old.items ++ more) × AreEnded position (table_of (rows_in slots.old.entries)) changes.now more) }
    ensures counted { IfOk result (λ count. count ≡ length (keys_of (records_of (rows_in slots.new.entries)))) }
    ensures err { OnErr result (rows_in slots.new.entries ≡ rows_in slots.old.entries) }
    ensures ended_stays { OnErr result (ended.new.items ≡ ended.old.items) }
    ensures cause { IfErr result (λ refusal. refusal ≡ Memory) }
{
    // All that can be refused comes first, so that a refusal changes nothing.
    let staged = stage(alloc, changes, position)?;
    ended.reserve(room_for_ended(slots, changes, staged.len())?)?;
    match expect_rows(alloc, slots, changes) {
        Ok(()) => {
            let named = ended.len();
            let count = play(slots, keys, changes, staged, ended);
            settle_changed(slots, changes, ended.len() > named + changes.len());
            Ok(count)
        }
        Err(refusal) => {
            settle_all(slots, changes);
            Err(refusal)
        }
    }
}

/// Awaits all puts, for which room is made.
fn expect_rows(
    alloc: Global,
    slots: &mut BTreeMap<Key, Slot>,
    changes: &[PlacedChange],
) -> Result<(), Refusal>
    requires { AreSlots slots.old.entries }
    ensures slots { AreSlots slots.new.entries }
    ensures rows { rows_in slots.new.entries ≡ rows_in slots.old.entries }
    ensures awaited { OnOk result ((q : List ℕ) → awaits q changes.now ≤ awaited_at q slots.new.entries) }
    ensures lists { OnOk result ((q : List ℕ) → IsTrue (makes_fields q changes.now) → IsTrue (is_list_at q slots.new.entries)) }
    ensures cause { IfErr result (λ refusal. refusal ≡ Memory) }
{
    for change in changes {
        if let PlacedChange::Put(put) = change {
            expect_row(alloc, slots, &put.id)?;
        }
    }
    Ok(())
}

/// Lets the slots of the changes await no put any more, and takes those out that have no row.
fn settle_all(slots: &mut BTreeMap<Key, Slot>, changes: &[PlacedChange])
    requires { AreSlots slots.old.entries }
    ensures slots { AreSlots slots.new.entries }
    ensures rows { rows_in slots.new.entries ≡ rows_in slots.old.entries }
{
    for change in changes {
        if let Some(key) = key_changed(change) {
            settle(slots, key);
        }
    }
}

/// Settles the slots that the changes left otherwise than they need be. Where more rows ended than there are changes, a string may have
/// taken the place of a hash, and would keep its list.
fn settle_changed(slots: &mut BTreeMap<Key, Slot>, changes: &[PlacedChange], many_ended: bool)
    requires { AreSlots slots.old.entries }
    ensures slots { AreSlots slots.new.entries }
    ensures rows { rows_in slots.new.entries ≡ rows_in slots.old.entries }
{
    if many_ended {
        settle_all(slots, changes);
    } else {
        settle_dropped(slots, changes);
    }
}

/// Takes the slots out that the changes left without a row, and gives up lists that have a string only. A put leaves a slot as it is, and what
/// it awaited has come.
fn settle_dropped(slots: &mut BTreeMap<Key, Slot>, changes: &[PlacedChange])
    requires { AreSlots slots.old.entries }
    ensures slots { AreSlots slots.new.entries }
    ensures rows { rows_in slots.new.entries ≡ rows_in slots.old.entries }
{
    for change in changes {
        match change {
            PlacedChange::Drop(id) => settle(slots, id.key()),
            PlacedChange::DropKey(key) => settle(slots, key),
            _ => {}
        }
    }
}

/// At least as many entries as the changes end, of which so many are puts.
fn room_for_ended(
    slots: &BTreeMap<Key, Slot>,
    changes: &[PlacedChange],
    puts: usize,
) -> Result<usize, Refusal>
    requires slots { AreSlots slots.now.entries }
    requires keyed { AreKeyed changes.now }
    requires lawful { IsLawful (table_of (rows_in slots.now.entries)) }
    ensures ok { IfOk result (λ room. ends_at_once (table_of (rows_in slots.now.entries)) changes.now + puts ≤ room) }
    ensures cause { IfErr result (λ refusal. refusal ≡ Memory) }
{
    let mut room = puts;
    for change in changes {
        match room.checked_add(most_ended(slots, change)) {
            Some(sum) => room = sum,
            None => return Err(Refusal::Memory),
        }
    }
    Ok(room)
}

/// At least as many rows as a change of one key ends: those of the key, or the one or two that it names.
fn most_ended(slots: &BTreeMap<Key, Slot>, change: &PlacedChange) -> usize
    requires slots { AreSlots slots.now.entries }
    requires keyed { IsSome (changed_key (change_of change.now)) }
    requires lawful { IsLawful (table_of (rows_in slots.now.entries)) }
    ensures { length (ended_rows (change_of change.now) (table_of (rows_in slots.now.entries))) ≤ result }
{
    match change {
        PlacedChange::Put(put) => match &put.id {
            RecordId::Str(key) => count_at(slots, key),
            RecordId::Field(..) => 2,
        },
        PlacedChange::Drop(_) => 1,
        PlacedChange::DropKey(key) => count_at(slots, key),
        PlacedChange::Clear => 0,
    }
}

/// Makes the changes, whose puts have their rows staged and room in the slots of their keys, and returns how many keys there are then.
fn play(
    slots: &mut BTreeMap<Key, Slot>,
    keys: u64,
    changes: &[PlacedChange],
    staged: Vec<Row>,
    ended: &mut Vec<EntryNo>,
) -> u64
    requires slots { AreSlots slots.old.entries }
    requires keyed { AreKeyed changes.now }
    requires lawful { IsLawful (table_of (rows_in slots.old.entries)) }
    requires fresh { AreFresh (table_of (rows_in slots.old.entries)) (puts_of changes.now) }
    requires staged { (position : ℕ) × (table_of staged.items ≡ rows_of_puts position (puts_of changes.now)) }
    requires counted { keys ≡ length (keys_of (records_of (rows_in slots.old.entries))) }
    requires awaited { (q : List ℕ) → awaits q changes.now ≤ awaited_at q slots.old.entries }
    requires lists { (q : List ℕ) → IsTrue (makes_fields q changes.now) → IsTrue (is_list_at q slots.old.entries) }
    requires room_for_ended { (position : ℕ) → vec_len ended.old + ends position (table_of (rows_in slots.old.entries)) changes.now ≤ vec_capacity ended.old }
    ensures slots { AreSlots slots.new.entries }
    ensures table { (position : ℕ) → table_of staged.items ≡ rows_of_puts position (puts_of changes.now)
        → table_of (rows_in slots.new.entries) ≡ place_all position (table_of (rows_in slots.old.entries)) changes.now }
    ensures ended { (position : ℕ) → table_of staged.items ≡ rows_of_puts position (puts_of changes.now)
        → (more : List EntryNo) × (ended.new.items ≡ ended.old.items ++ more) × AreEnded position (table_of (rows_in slots.old.entries)) changes.now more }
    ensures counted { result ≡ length (keys_of (records_of (rows_in slots.new.entries))) }
{
    let mut count = keys;
    let mut staged = staged.into_iter();
    for change in changes {
        count = make_one(slots, count, change, &mut staged, ended);
    }
    count
}

/// Makes one change of one key, and returns how many keys there are then; there were `keys`.
fn make_one(
    slots: &mut BTreeMap<Key, Slot>,
    keys: u64,
    change: &PlacedChange,
    staged: &mut IntoIter<Row>,
    ended: &mut Vec<EntryNo>,
) -> u64
    requires slots { AreSlots slots.old.entries }
    requires keyed { IsSome (changed_key (change_of change.now)) }
    requires staged { (position : ℕ) × (later : List Put) × (table_of (into_iter_items staged.old) ≡ rows_of_puts position (put_of change.now ++ later)) }
    requires counted { keys ≡ length (keys_of (records_of (rows_in slots.old.entries))) }
    requires awaited { (q : List ℕ) → awaits_of q change.now ≤ awaited_at q slots.old.entries }
    requires lists { (q : List ℕ) → IsTrue (makes_field_of q change.now) → IsTrue (is_list_at q slots.old.entries) }
    requires room_for_ended { vec_len ended.old + length (ended_rows (change_of change.now) (table_of (rows_in slots.old.entries))) ≤ vec_capacity ended.old }
    ensures slots { AreSlots slots.new.entries }
    ensures table { (position : ℕ) (later : List Put) → table_of (into_iter_items staged.old) ≡ rows_of_puts position (put_of change.now ++ later)
        → (table_of (rows_in slots.new.entries) ≡ place position (table_of (rows_in slots.old.entries)) change.now) × (table_of (into_iter_items staged.new) ≡ rows_of_puts position later) }
    ensures ended { numbers_of ended.new.items ≡ numbers_of ended.old.items ++ entries_of (ended_rows (change_of change.now) (table_of (rows_in slots.old.entries))) }
    ensures counted { result ≡ length (keys_of (records_of (rows_in slots.new.entries))) }
    ensures awaited { (q : List ℕ) → awaited_at q slots.new.entries + awaits_of q change.now ≡ awaited_at q slots.old.entries }
    ensures lists { (q : List ℕ) → is_list_at q slots.new.entries ≡ is_list_at q slots.old.entries }
    ensures capacity_for_ended { vec_capacity ended.old ≤ vec_capacity ended.new }
{
    match key_changed(change) {
        Some(key) => {
            let _slots = slots.len();
            let (had, has) = change_slot(slots, key, change, staged, ended);
            count_after(keys, had, has)
        }
        None => unreachable!(),
    }
}

/// How many keys there are after a change of one, where there were `keys` before it. The key had records then or not, and has some now or not.
fn count_after(keys: u64, had: bool, has: bool) -> u64
    requires some { IsTrue had → 1 ≤ keys }
    requires bound { keys < 2 ^ 63 }
    ensures { result + cond had 1 0 ≡ keys + cond has 1 0 }
{
    let others = if had { keys - 1 } else { keys };
    if has { others + 1 } else { others }
}

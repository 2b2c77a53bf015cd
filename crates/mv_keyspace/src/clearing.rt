//! The changes of a command or of a frame that ends the records of all keys.
ghost use Rattle.std.specs.Prelude.{◌≡◌, ℕ, ◌++◌, ◌∷◌, List, length, map, IfSome, IfNone, IfOk, IfErr, OnOk, OnErr};
ghost use Rattle.kv_types.specs.declared.place.EntryNo.{EntryNo};
ghost use Rattle.kv_types.specs.declared.refusal.Refusal.TheVariants.{Memory};
ghost use Rattle.cmd_core.specs.Contents.{keys_of};
ghost use Rattle.model.specs.declared.group.PlacedChange.TheVariants as placed;
ghost use Rattle.mv_keyspace.specs.Row.{numbers_of, records_of, table_of};
ghost use Rattle.mv_keyspace.specs.Slot.{rows_of};
ghost use Rattle.mv_keyspace.specs.Slots.{AreKeyed, AreSlots, rows_in};
ghost use Rattle.mv_keyspace.specs.Table.{entries_of, place_all, puts_of, AreEnded, AreFresh, IsLawful};

use crate::by_key::change_keys;
use crate::row::Row;
use crate::slot::Slot;
use kv_types::{EntryNo, Key, Refusal};
use model::PlacedChange;
use std::alloc::{AllocError, Global};
use std::collections::BTreeMap;

/// The changes before the last that ends the records of all keys, and those after it, or `None` where there is none.
pub(crate) fn around_clear(changes: &[PlacedChange]) -> Option<(&[PlacedChange], &[PlacedChange])>
    ensures none { IfNone result (AreKeyed changes.now) }
    ensures parts { IfSome result (λ parts. changes.now ≡ parts.0.now ++ placed.Clear ∷ parts.1.now) }
    ensures later { IfSome result (λ parts. AreKeyed parts.1.now) }
{
    let mut rest = changes;
    while let Some((change, before)) = rest.split_last() {
        if let PlacedChange::Clear = change {
            let (_, later) = changes.split_at(rest.len());
            return Some((before, later));
        }
        rest = before;
    }
    None
}

/// Makes all changes, of which those in `later` come after one that ends the records of all keys and those in `before` before it. Returns the
/// slots as they are then, with how many keys there are, and leaves those that there were. The entries that the changes ended are appended
/// to those in `ended`, unless it is refused with `Memory` where a growth was refused.
pub(crate) fn change_after_clear(
    alloc: Global,
    slots: &BTreeMap<Key, Slot>,
    before: &[PlacedChange],
    later: &[PlacedChange],
    position: u64,
    ended: &mut Vec<EntryNo>,
) -> Result<(BTreeMap<Key, Slot>, u64), Refusal>
    requires keyed { AreKeyed later.now }
    requires lawful { IsLawful (table_of (rows_in slots.now.entries)) }
    requires fresh { AreFresh (table_of (rows_in slots.now.entries)) (puts_of (before.now ++ placed.Clear ∷ later.now)) }
    ensures slots { IfOk result (λ made. AreSlots made.0.entries) }
    ensures table { IfOk result (λ made. table_of (rows_in made.0.entries) ≡ place_all position (table_of (rows_in slots.now.entries)) (before.now ++ placed.Clear ∷ later.now)) }
    ensures ended { OnOk result ((more : List EntryNo) × (ended.new.items ≡ ended.old.items ++ more) × AreEnded position (table_of (rows_in slots.now.entries)) (before.now ++ placed.Clear ∷ later.now) more) }
    ensures counted { IfOk result (λ made. made.1 ≡ length (keys_of (records_of (rows_in made.0.entries)))) }
    ensures ended_stays { OnErr result (ended.new.items ≡ ended.old.items) }
    ensures cause { IfErr result (λ refusal. refusal ≡ Memory) }
{
    let mut named = Vec::new(alloc);
    name_rows_in(slots, &mut named)?;
    name_puts(before, &mut named)?;
    let mut made = BTreeMap::new(alloc);
    let keys = change_keys(alloc, &mut made, 0, later, position, &mut named)?;
    ended.append(&mut named)?;
    Ok((made, keys))
}

/// Names the entries of all rows.
fn name_rows_in(slots: &BTreeMap<Key, Slot>, named: &mut Vec<EntryNo>) -> Result<(), AllocError>
    ensures { OnOk result (numbers_of named.new.items ≡ numbers_of named.old.items ++ entries_of (table_of (rows_in slots.now.entries))) }
{
    for entry in slots {
        name_slot(entry.1, named)?;
    }
    Ok(())
}

/// Names the entries of the rows of a slot.
fn name_slot(slot: &Slot, named: &mut Vec<EntryNo>) -> Result<(), AllocError>
    ensures { OnOk result ((key : List ℕ) → numbers_of named.new.items ≡ numbers_of named.old.items ++ entries_of (table_of (rows_of key slot.now))) }
{
    match slot {
        Slot::Vacant(_) => Ok(()),
        Slot::Str(_, version) => Ok(named.push(version.entry)?),
        Slot::Rows(list) => name_rows(list.rows(), named),
    }
}

/// Names the entries of these rows.
fn name_rows(rows: &[Row], named: &mut Vec<EntryNo>) -> Result<(), AllocError>
    ensures { OnOk result (numbers_of named.new.items ≡ numbers_of named.old.items ++ entries_of (table_of rows.now)) }
{
    for row in rows {
        named.push(row.entry)?;
    }
    Ok(())
}

/// Names the entries of the puts among the changes.
fn name_puts(changes: &[PlacedChange], named: &mut Vec<EntryNo>) -> Result<(), AllocError>
    ensures { OnOk result (numbers_of named.new.items ≡ numbers_of named.old.items ++ map (λ put. put.entry.0) (puts_of changes.now)) }
{
    for change in changes {
        if let PlacedChange::Put(put) = change {
            named.push(put.entry)?;
        }
    }
    Ok(())
}

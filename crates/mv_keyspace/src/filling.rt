//! Rows in order, each taken into the slot of its key.
ghost use Rattle.std.specs.Prelude.{◌≡◌, ◌≤◌, ◌++◌, [], ◌∷◌, length, IsTrue, IfOk, IfErr};
ghost use Rattle.std.specs.FinMap.Entries.{is_sorted};
ghost use Rattle.kv_types.specs.declared.refusal.Refusal.TheVariants.{Memory};
ghost use Rattle.kv_types.specs.Keyspace.{key_of, record_cmp};
ghost use Rattle.mv_keyspace.specs.Row.{records_of};
ghost use Rattle.mv_keyspace.specs.Slot.{rows_of};
ghost use Rattle.mv_keyspace.specs.Slots.{AreSlots, rows_in};

use crate::row::Row;
use crate::slot::Slot;
use kv_types::{Key, Refusal};
use std::alloc::{AllocError, Global};
use std::collections::BTreeMap;

/// Slots with these rows. The map is made at once, from a list of all its keys in order. At most two of these are held at a time: the rows,
/// the list of the keys with their slots, a second such list, and the map. Their bytes are shared.
pub(crate) fn slots_of(alloc: Global, rows: Vec<Row>) -> Result<BTreeMap<Key, Slot>, Refusal>
    requires { IsTrue (is_sorted record_cmp (records_of rows.items)) }
    ensures slots { IfOk result (λ slots. AreSlots slots.entries) }
    ensures rows { IfOk result (λ slots. rows_in slots.entries ≡ rows.items) }
    ensures cause { IfErr result (λ refusal. refusal ≡ Memory) }
{
    let pairs = pairs_of(alloc, rows)?;
    Ok(BTreeMap::from_iter(alloc, pairs)?)
}

/// The keys of these rows in order, each with its slot.
fn pairs_of(alloc: Global, rows: Vec<Row>) -> Result<Vec<(Key, Slot)>, AllocError>
    requires { IsTrue (is_sorted record_cmp (records_of rows.items)) }
    ensures slots { IfOk result (λ pairs. AreSlots pairs.items) }
    ensures rows { IfOk result (λ pairs. rows_in pairs.items ≡ rows.items) }
{
    let mut pairs = Vec::with_capacity(alloc, rows.len())?;
    let mut rows = rows.into_iter();
    let Some(first) = rows.next() else {
        return Ok(pairs);
    };
    let mut last = pair_of(alloc, first)?;
    for row in rows {
        last = join(alloc, &mut pairs, last, row)?;
    }
    pairs.push(last)?;
    Ok(pairs)
}

/// Takes a row that comes after all others into the last pair, where that is of its key, or makes a pair of it. Returns the pair that is last
/// then; one that was last before goes to the others.
fn join(
    alloc: Global,
    pairs: &mut Vec<(Key, Slot)>,
    last: (Key, Slot),
    row: Row,
) -> Result<(Key, Slot), AllocError>
    requires slots { AreSlots (pairs.old.items ++ last ∷ []) }
    requires filled { 1 ≤ length (rows_of last.0 last.1) }
    requires order { IsTrue (is_sorted record_cmp (records_of (rows_in (pairs.old.items ++ last ∷ []) ++ row ∷ []))) }
    ensures slots { IfOk result (λ pair. AreSlots (pairs.new.items ++ pair ∷ [])) }
    ensures filled { IfOk result (λ pair. 1 ≤ length (rows_of pair.0 pair.1)) }
    ensures rows { IfOk result (λ pair. rows_in (pairs.new.items ++ pair ∷ []) ≡ rows_in (pairs.old.items ++ last ∷ []) ++ row ∷ []) }
{
    let (key, mut slot) = last;
    if key == *row.id.key() {
        slot.add_last(alloc, row)?;
        return Ok((key, slot));
    }
    let next = pair_of(alloc, row)?;
    pairs.push((key, slot))?;
    Ok(next)
}

/// The key of a row, with a slot that has this row alone.
fn pair_of(alloc: Global, row: Row) -> Result<(Key, Slot), AllocError>
    ensures key { IfOk result (λ pair. pair.0 ≡ key_of row.id) }
    ensures rows { IfOk result (λ pair. rows_of pair.0 pair.1 ≡ row ∷ []) }
{
    let key = row.id.key().clone()?;
    let mut slot = Slot::Vacant(0);
    slot.add_last(alloc, row)?;
    Ok((key, slot))
}

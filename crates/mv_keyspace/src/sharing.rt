//! Rows that are given to a caller, and share their bytes with those of the keyspace.
ghost use Rattle.std.specs.Prelude.{◌≡◌, ◌++◌, IfOk, OnOk};
ghost use Rattle.mv_keyspace.specs.Row.{table_of};
ghost use Rattle.mv_keyspace.specs.Slot.{rows_of};
ghost use Rattle.mv_keyspace.specs.Slots.{rows_in};
ghost use Rattle.mv_keyspace.specs.Table.{since};

use crate::row::Row;
use crate::slot::Slot;
use kv_types::Key;
use std::alloc::{AllocError, Global};
use std::collections::BTreeMap;

/// The rows of a list whose change came after the position `from`, in their order.
pub(crate) fn rows_since(alloc: Global, rows: &[Row], from: u64) -> Result<Vec<Row>, AllocError>
    ensures { IfOk result (λ later. table_of later.items ≡ since from (table_of rows.now)) }
{
    let mut later = Vec::new(alloc);
    share_since(&mut later, rows, from)?;
    Ok(later)
}

/// The rows of all slots whose change came after the position `from`, in their order.
pub(crate) fn rows_in_since(
    alloc: Global,
    slots: &BTreeMap<Key, Slot>,
    from: u64,
) -> Result<Vec<Row>, AllocError>
    ensures { IfOk result (λ later. table_of later.items ≡ since from (table_of (rows_in slots.now.entries))) }
{
    let mut later = Vec::new(alloc);
    for entry in slots {
        share_slot_since(&mut later, entry.0, entry.1, from)?;
    }
    Ok(later)
}

/// Appends those rows of the slot of a key whose change came after the position `from`, in their order.
fn share_slot_since(
    later: &mut Vec<Row>,
    key: &Key,
    slot: &Slot,
    from: u64,
) -> Result<(), AllocError>
    ensures { OnOk result (table_of later.new.items ≡ table_of later.old.items ++ since from (table_of (rows_of key.now slot.now))) }
{
    match slot {
        Slot::Vacant(_) => Ok(()),
        Slot::Str(_, version) => if version.position > from {
            Ok(later.push(version.row(key)?)?)
        } else {
            Ok(())
        },
        Slot::Rows(list) => share_since(later, list.rows(), from),
    }
}

/// Appends those rows whose change came after the position `from`, in their order.
fn share_since(later: &mut Vec<Row>, rows: &[Row], from: u64) -> Result<(), AllocError>
    ensures { OnOk result (table_of later.new.items ≡ table_of later.old.items ++ since from (table_of rows.now)) }
{
    for row in rows {
        if row.position > from {
            later.push(shared(row)?)?;
        }
    }
    Ok(())
}

/// The same row once more.
pub(crate) fn shared(row: &Row) -> Result<Row, AllocError>
    ensures { IfOk result (λ copy. copy ≡ row.now) }
{
    Ok(Row {
        id: row.id.clone()?,
        value: row.value.clone()?,
        entry: row.entry,
        position: row.position,
    })
}

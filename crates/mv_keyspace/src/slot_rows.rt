//! The live records in an ordered map from each key to those of it.
ghost use Rattle.std.specs.Prelude.{◌≡◌, length};
ghost use Rattle.std.proofs.Props.{props};
ghost use Rattle.cmd_core.specs.Contents.{keys_of};
ghost use Rattle.mv_keyspace.specs.Row.{records_of};
ghost use Rattle.mv_keyspace.specs.Slots.{AreSlots, rows_in};

use crate::by_key::change_keys;
use crate::clearing::{around_clear, change_after_clear};
use crate::filling::slots_of;
use crate::gathering::{put_begun_of, put_ended_in};
use crate::key_bytes::KeyBytes;
use crate::live::Live;
use crate::loading::sort_rows;
use crate::page_rows::PageRows;
use crate::reading::{count_fields_in, count_in, field_in, fields_in, find_in, has_in, string_in};
use crate::row::Row;
use crate::sharing::rows_in_since;
use crate::shown::Shown;
use crate::slot::Slot;
use cmd_core::{Lookup, count_keys_in};
use kv_types::{EntryNo, Field, Key, RecordId, Refusal, Value};
use model::PlacedChange;
use std::alloc::{AllocError, Global};
use std::collections::BTreeMap;

/// The live records of a node, those of each key in a slot of an ordered map, so that what a change costs hardly grows with the number
/// of records. Only one that ends the records of all keys goes over all of them. The keys are counted as they come and go.
#[derive(Debug, Drop)]
pub struct SlotRows {
    slots: BTreeMap<Key, Slot>,
    /// How many keys there are.
    keys: u64,
    ghost slotted: { AreSlots slots.entries } by { Prim.hlevel props },
    ghost counted: { keys ≡ length (keys_of (records_of (rows_in slots.entries))) },
}

impl SlotRows {
    ghost use Rattle.std.specs.Prelude.{◌≡◌, []};
    ghost use Rattle.mv_keyspace.specs.Row.{table_of};
    ghost use Rattle.mv_keyspace.specs.Slots.{rows_in};

    /// A keyspace without records. It takes no memory.
    #[tactic(auto, using(cmd_core::proofs::RecordsLemmas::keys_none))]
    pub fn new(alloc: Global) -> SlotRows
        ensures { table_of (rows_in result.slots.entries) ≡ [] }
    {
        SlotRows {
            slots: BTreeMap::new(alloc),
            keys: 0,
        }
    }
}

impl Lookup for SlotRows {
    ghost use Rattle.mv_keyspace.specs.Row.{records_of};
    ghost use Rattle.mv_keyspace.specs.Slots.{rows_in};

    ghost keyspace = { λ keyspace. records_of (rows_in keyspace.slots.entries) };

    fn string(&self, key: &[u8]) -> Option<&Value> {
        match self.slots.get(KeyBytes(key)) {
            Some(slot) => string_in(slot, key),
            None => None,
        }
    }

    fn field(&self, key: &[u8], field: &[u8]) -> Option<&Value> {
        match self.slots.get(KeyBytes(key)) {
            Some(slot) => field_in(slot, key, field),
            None => None,
        }
    }

    fn has(&self, key: &[u8]) -> bool {
        match self.slots.get(KeyBytes(key)) {
            Some(slot) => has_in(slot, key),
            None => false,
        }
    }

    #[tactic(auto, using(crate::proofs::ReadingLemmas::keys_few_slots))]
    fn count_keys(&self) -> u64 {
        let _slots = self.slots.len();
        self.keys
    }

    fn count_fields(&self, key: &[u8]) -> u64 {
        match self.slots.get(KeyBytes(key)) {
            Some(slot) => count_fields_in(slot, key),
            None => 0,
        }
    }

    fn fields(&self, alloc: Global, key: &[u8]) -> Result<Vec<(Field, Value)>, AllocError> {
        match self.slots.get(KeyBytes(key)) {
            Some(slot) => fields_in(alloc, slot, key),
            None => Ok(Vec::new(alloc)),
        }
    }
}

impl Live for SlotRows {
    ghost use Rattle.mv_keyspace.specs.Row.{table_of, records_of_table};
    ghost use Rattle.mv_keyspace.specs.Slots.{rows_in};

    ghost table = { λ keyspace. table_of (rows_in keyspace.slots.entries) };

    ghost reads = { λ keyspace. records_of_table (rows_in keyspace.slots.entries) };

    fn empty(alloc: Global) -> SlotRows {
        SlotRows::new(alloc)
    }

    fn apply(
        &mut self,
        alloc: Global,
        changes: &[PlacedChange],
        position: u64,
        ended: &mut Vec<EntryNo>,
    ) -> Result<(), Refusal> {
        match around_clear(changes) {
            None => {
                self.keys = change_keys(
                    alloc,
                    &mut self.slots,
                    self.keys,
                    changes,
                    position,
                    ended,
                )?;
            }
            Some((before, later)) => {
                let (slots, keys) = change_after_clear(
                    alloc,
                    &self.slots,
                    before,
                    later,
                    position,
                    ended,
                )?;
                self.slots = slots;
                self.keys = keys;
            }
        }
        Ok(())
    }

    fn load(&mut self, alloc: Global, mut rows: Vec<Row>) -> Result<(), Refusal> {
        sort_rows(&mut rows);
        let keys = count_keys_in(&rows);
        self.slots = slots_of(alloc, rows)?;
        self.keys = keys;
        Ok(())
    }

    fn since(&self, alloc: Global, from: u64) -> Result<Vec<Row>, Refusal> {
        Ok(rows_in_since(alloc, &self.slots, from)?)
    }

    fn noted(
        &self,
        alloc: Global,
        changes: &[PlacedChange],
    ) -> Result<BTreeMap<RecordId, Row>, Refusal> {
        let mut noted = BTreeMap::new(alloc);
        for change in changes {
            put_ended_in(&mut noted, &self.slots, change)?;
        }
        Ok(noted)
    }

    fn find(&self, id: &RecordId) -> Option<Shown<'_>> {
        match self.slots.get(id.key()) {
            Some(slot) => find_in(slot, id),
            None => None,
        }
    }

    fn put_begun(&self, position: u64, rows: &mut BTreeMap<RecordId, Row>) -> Result<(), Refusal> {
        for entry in &self.slots {
            put_begun_of(rows, entry.0, entry.1, position)?;
        }
        Ok(())
    }

    fn begun_after(
        &self,
        alloc: Global,
        position: u64,
        after: Option<&RecordId>,
        bytes: u64,
    ) -> Result<Vec<Row>, Refusal> {
        let mut page = PageRows::new(alloc, bytes);
        page.take_all(&self.slots, position, after)?;
        Ok(page.into_rows())
    }

    fn count(&self) -> u64 {
        let mut count = 0u64;
        for entry in &self.slots {
            count = count.saturating_add(count_in(entry.1) as u64);
        }
        count
    }
}

//! A keyspace that shows what was live at the positions that are pinned.
ghost use Rattle.std.proofs.Props.{props};
ghost use Rattle.std.specs.Prelude.{◌≡◌, ℕ, [], map, IfOk, IfErr};
ghost use Rattle.mv_keyspace.specs.Row.{table_of};
ghost use Rattle.mv_keyspace.specs.Table.{since};
ghost use Rattle.mv_keyspace.specs.Versions.{ended_at, kept, past_of, pins_of, table_in, IsUpTo};

use crate::keyspace::Keyspace;
use crate::list_rows::ListRows;
use crate::live::Live;
use crate::overlaying::overlaid;
use crate::paging::{last_of_full, page_of};
use crate::past::Past;
use crate::pin::Pin;
use crate::row::Row;
use crate::shown::Shown;
use crate::slot_rows::SlotRows;
use cmd_core::Lookup;
use kv_types::{EntryNo, Field, RecordId, Refusal, Value};
use model::PlacedChange;
use std::alloc::{AllocError, Global};
use std::collections::BTreeMap;

/// A keyspace whose live records are kept by `L`. While a position is pinned, it keeps beside them each version that ends, with the
/// positions of its begin and end. Where nothing is pinned it keeps nothing more.
#[derive(Debug, Drop)]
pub struct Versioned<L: Live> {
    live: L,
    past: Past,
    ghost passed: { IsUpTo past.position (L.table live) (past_of past) } by { Prim.hlevel props },
}

/// The keyspace of the programs: an ordered map from each key to its records.
pub type MvKeyspace = Versioned<SlotRows>;

/// A second keyspace, which proves the same laws: a list of the records in their order.
pub type ListKeyspace = Versioned<ListRows>;

impl<L: Live> Versioned<L> {
    /// A keyspace without records. It takes no memory.
    pub fn new(alloc: Global) -> Versioned<L>
        ensures none { L.table result.live ≡ [] }
        ensures past { past_of result.past ≡ [] }
        ensures pins { pins_of result.past ≡ [] }
        ensures last { result.past.position ≡ 0 }
    {
        Versioned {
            live: L::empty(alloc),
            past: Past::new(alloc),
        }
    }

    /// What is kept of the live rows that the changes end, which is nothing where no position is pinned.
    fn noted(
        &self,
        alloc: Global,
        changes: &[PlacedChange],
    ) -> Result<BTreeMap<RecordId, Row>, Refusal>
        ensures ok { IfOk result (λ noted. (position : ℕ) → map (ended_at position) (table_in noted.entries) ≡ kept (pins_of self.now.past) position changes.now (L.table self.now.live)) }
        ensures cause { IfErr result (λ refusal. refusal ≡ Refusal.Memory) }
    {
        if self.past.is_pinned() {
            self.live.noted(alloc, changes)
        } else {
            Ok(BTreeMap::new(alloc))
        }
    }
}

impl<L: Live> Lookup for Versioned<L> {
    ghost keyspace = { λ keyspace. L.keyspace keyspace.live };

    fn string(&self, key: &[u8]) -> Option<&Value> {
        self.live.string(key)
    }

    fn field(&self, key: &[u8], field: &[u8]) -> Option<&Value> {
        self.live.field(key, field)
    }

    fn has(&self, key: &[u8]) -> bool {
        self.live.has(key)
    }

    fn count_keys(&self) -> u64 {
        self.live.count_keys()
    }

    fn count_fields(&self, key: &[u8]) -> u64 {
        self.live.count_fields(key)
    }

    fn fields(&self, alloc: Global, key: &[u8]) -> Result<Vec<(Field, Value)>, AllocError> {
        self.live.fields(alloc, key)
    }
}

impl<L: Live> Keyspace for Versioned<L> {
    ghost use Rattle.mv_keyspace.specs.Versions.{past_of, pins_of};

    ghost table = { λ keyspace. L.table keyspace.live };

    ghost past = { λ keyspace. past_of keyspace.past };

    ghost pins = { λ keyspace. pins_of keyspace.past };

    ghost last = { λ keyspace. keyspace.past.position };

    ghost reads = { λ keyspace. L.reads keyspace.live };

    fn empty(alloc: Global) -> Versioned<L> {
        Versioned::new(alloc)
    }

    fn apply(
        &mut self,
        alloc: Global,
        changes: &[PlacedChange],
        position: u64,
        ended: &mut Vec<EntryNo>,
    ) -> Result<(), Refusal> {
        let noted = self.noted(alloc, changes)?;
        self.past.reserve(noted.len())?;
        self.live.apply(alloc, changes, position, ended)?;
        self.past.keep(noted, position);
        Ok(())
    }

    fn load(&mut self, alloc: Global, rows: Vec<Row>) -> Result<(), Refusal> {
        self.past.reach_rows(&rows);
        self.live.load(alloc, rows)
    }

    fn since(&self, alloc: Global, from: u64) -> Result<Vec<Row>, Refusal> {
        self.live.since(alloc, from)
    }

    fn pin(&mut self) -> Result<Pin, Refusal> {
        Ok(self.past.pin()?)
    }

    fn version(&self, id: &RecordId) -> Option<Shown<'_>> {
        self.live.find(id)
    }

    fn view(&self, pin: &Pin, id: &RecordId) -> Option<Shown<'_>> {
        match self.live.find(id) {
            Some(shown) if shown.position <= pin.position => Some(shown),
            _ => self.past.get(pin.position, id),
        }
    }

    fn view_since(&self, alloc: Global, pin: &Pin, from: u64) -> Result<Vec<Row>, Refusal> {
        let mut shown = BTreeMap::new(alloc);
        self.past.put_shown(pin.position, &mut shown)?;
        self.live.put_begun(pin.position, &mut shown)?;
        rows_of(alloc, shown, from)
    }

    fn view_page(
        &self,
        alloc: Global,
        pin: &Pin,
        after: Option<&RecordId>,
        bytes: u64,
    ) -> Result<Vec<Row>, Refusal> {
        let live = self.live.begun_after(alloc, pin.position, after, bytes)?;
        let until = last_of_full(&live, bytes);
        let past = self.past.shown_within(alloc, pin.position, after, until)?;
        Ok(page_of(overlaid(alloc, past, live)?, bytes))
    }

    fn unpin(&mut self, pin: Pin) {
        self.past.unpin(pin);
    }

    fn reclaim(&mut self, horizon: u64) {
        self.past.reclaim(horizon);
    }

    fn versions(&self) -> u64 {
        self.live.count().saturating_add(self.past.len() as u64)
    }
}

/// The rows whose change came after the position `from`, in the order of records.
fn rows_of(alloc: Global, gathered: BTreeMap<RecordId, Row>, from: u64) -> Result<Vec<Row>, Refusal>
    ensures ok { IfOk result (λ rows. table_of rows.items ≡ since from (table_in gathered.entries)) }
    ensures cause { IfErr result (λ refusal. refusal ≡ Refusal.Memory) }
{
    let mut rows = Vec::new(alloc);
    for (id, row) in gathered {
        if row.position > from {
            rows.push(Row { id, ..row })?;
        }
    }
    Ok(rows)
}

//! The versions that ended while a position was pinned.
ghost use Rattle.std.specs.Prelude.{◌≡◌, ◌&&◌, false, None, Some, ℕ, ◌+◌, ◌<◌, ◌≤◌, ◌++◌, [], ◌∷◌, List, map, length, max, IsTrue, OnOk, OnErr, IfOk, MatchOption, vec_len, vec_capacity};
ghost use Rattle.std.specs.List.{AllByRecursion, remove};
ghost use Rattle.std.specs.FinMap.Entries.{where_key};
ghost use Rattle.std.specs.Option.{option_copied};
ghost use Rattle.kv_types.specs.Keyspace.{record_cmp};
ghost use Rattle.mv_keyspace.specs.Paging.{is_within};
ghost use Rattle.mv_keyspace.specs.Row.{table_of};
ghost use Rattle.mv_keyspace.specs.Table.{cell_at};
ghost use Rattle.mv_keyspace.specs.Version.{cell_of_shown};
ghost use Rattle.mv_keyspace.specs.Versions.{ended_at, is_pinned, is_shown, last_among, past_of, pins_of, reclaimed, table_in, version_of, with_past, without_pin};

use crate::gathering::put_shared;
use crate::paging::{is_after, is_until};
use crate::pin::Pin;
use crate::row::Row;
use crate::shown::Shown;
use kv_types::RecordId;
use std::alloc::{AllocError, Global};
use std::collections::BTreeMap;

/// A version that ended, with the position of the change that ended it.
#[derive(Debug, Drop)]
pub(crate) struct Ended {
    row: Row,
    end: u64,
}

impl Ended {
    /// Whether the version had begun at this position and had not ended.
    fn is_shown(&self, position: u64) -> bool
        ensures { result ≡ is_shown position (version_of self.now).1 }
    {
        self.row.position <= position && position < self.end
    }

    /// Whether the version is shown at this position, and its record comes behind the one and not behind the other.
    fn is_shown_within(
        &self,
        position: u64,
        after: Option<&RecordId>,
        until: Option<&RecordId>,
    ) -> bool
        ensures { result ≡ (is_shown position (version_of self.now).1 && is_within (option_copied after.entry) (option_copied until.entry) self.now.row.id) }
    {
        self.is_shown(position) && is_after(after, &self.row.id) && is_until(until, &self.row.id)
    }

    /// Whether one of these positions shows the version.
    fn is_pinned(&self, pins: &[u64]) -> bool
        ensures { result ≡ is_pinned pins.now (version_of self.now).1 }
    {
        for pin in pins {
            if self.is_shown(*pin) {
                return true;
            }
        }
        false
    }
}

/// The versions that ended while a position was pinned, the last of them at the end, and the positions that are pinned.
#[derive(Debug, Drop)]
pub(crate) struct Past {
    ended: Vec<Ended>,
    pins: Vec<u64>,
    /// The position of the last change.
    position: u64,
}

impl Past {
    /// No version, and nothing pinned. It takes no memory.
    pub(crate) fn new(alloc: Global) -> Past
        ensures versions { past_of result ≡ [] }
        ensures pins { pins_of result ≡ [] }
        ensures position { result.position ≡ 0 }
    {
        Past {
            ended: Vec::new(alloc),
            pins: Vec::new(alloc),
            position: 0,
        }
    }

    /// How many versions there are.
    pub(crate) fn len(&self) -> usize
        ensures { result ≡ length (past_of self.now) }
    {
        self.ended.len()
    }

    /// Whether a position is pinned.
    pub(crate) fn is_pinned(&self) -> bool
        ensures some { IsTrue result → (pin : ℕ) × (pins : List ℕ) × (pins_of self.now ≡ pin ∷ pins) }
        ensures none { result ≡ false → pins_of self.now ≡ [] }
    {
        !self.pins.is_empty()
    }

    /// Pins the position of the last change.
    pub(crate) fn pin(&mut self) -> Result<Pin, AllocError>
        ensures versions { past_of self.new ≡ past_of self.old }
        ensures position { self.new.position ≡ self.old.position }
        ensures pin { IfOk result (λ pin. pin.position ≡ self.old.position) }
        ensures pins { IfOk result (λ pin. pins_of self.new ≡ pins_of self.old ++ pin.position ∷ []) }
        ensures err { OnErr result (pins_of self.new ≡ pins_of self.old) }
    {
        self.pins.push(self.position)?;
        Ok(Pin {
            position: self.position,
        })
    }

    /// Takes a pin back.
    pub(crate) fn unpin(&mut self, pin: Pin)
        ensures versions { past_of self.new ≡ past_of self.old }
        ensures position { self.new.position ≡ self.old.position }
        ensures pins { pins_of self.new ≡ without_pin pin.position (pins_of self.old) }
    {
        if let Some(at) = place_of(&self.pins, pin.position) {
            self.pins.remove(at);
        }
    }

    /// Drops the versions that ended by the horizon and that no pinned position shows.
    pub(crate) fn reclaim(&mut self, horizon: u64)
        ensures versions { past_of self.new ≡ reclaimed horizon (pins_of self.old) (past_of self.old) }
        ensures position { self.new.position ≡ self.old.position }
        ensures pins { pins_of self.new ≡ pins_of self.old }
    {
        let pins = &self.pins;
        self.ended
            .retain(|ended| ended.end > horizon || ended.is_pinned(pins));
    }

    /// Makes room for so many versions.
    pub(crate) fn reserve(&mut self, count: usize) -> Result<(), AllocError>
        ensures versions { past_of self.new ≡ past_of self.old }
        ensures position { self.new.position ≡ self.old.position }
        ensures pins { pins_of self.new ≡ pins_of self.old }
        ensures room { OnOk result (vec_len self.old.ended + count ≤ vec_capacity self.new.ended) }
    {
        self.ended.reserve(count)
    }

    /// Takes rows that ended at this position, for which there is room, and takes note of the change that ended them.
    pub(crate) fn keep(&mut self, rows: BTreeMap<RecordId, Row>, position: u64)
        requires room { vec_len self.old.ended + length rows.entries ≤ vec_capacity self.old.ended }
        ensures versions { past_of self.new ≡ past_of self.old ++ map (ended_at position) (table_in rows.entries) }
        ensures pins { pins_of self.new ≡ pins_of self.old }
        ensures position { self.new.position ≡ max self.old.position position }
        ensures rises { (self.old.position ≤ self.new.position) × (position ≤ self.new.position) }
    {
        if !rows.is_empty() {
            self.keep_all(rows, position);
        }
        self.reach(position);
    }

    /// Takes each of these rows as one that ended at this position.
    fn keep_all(&mut self, rows: BTreeMap<RecordId, Row>, position: u64)
        requires room { vec_len self.old.ended + length rows.entries ≤ vec_capacity self.old.ended }
        ensures versions { past_of self.new ≡ past_of self.old ++ map (ended_at position) (table_in rows.entries) }
        ensures pins { pins_of self.new ≡ pins_of self.old }
        ensures position { self.new.position ≡ self.old.position }
    {
        for (id, row) in rows {
            let row = Row { id, ..row };
            self.ended.push(Ended { row, end: position }).unwrap();
        }
    }

    /// Takes note of a change at this position.
    pub(crate) fn reach(&mut self, position: u64)
        ensures versions { past_of self.new ≡ past_of self.old }
        ensures pins { pins_of self.new ≡ pins_of self.old }
        ensures position { self.new.position ≡ max self.old.position position }
        ensures rises { (self.old.position ≤ self.new.position) × (position ≤ self.new.position) }
    {
        self.position = self.position.max(position);
    }

    /// Takes note of the changes that put these rows.
    pub(crate) fn reach_rows(&mut self, rows: &[Row])
        ensures versions { past_of self.new ≡ past_of self.old }
        ensures pins { pins_of self.new ≡ pins_of self.old }
        ensures position { self.new.position ≡ last_among self.old.position (table_of rows.now) }
        ensures rises { self.old.position ≤ self.new.position }
        ensures rows { AllByRecursion (λ row. row.1.position ≤ self.new.position) (table_of rows.now) }
    {
        for row in rows {
            self.reach(row.position);
        }
    }

    /// The newest of the versions of a record that are shown at this position.
    pub(crate) fn get(&self, position: u64, id: &RecordId) -> Option<Shown<'_>>
        ensures { MatchOption result (cell_at (with_past position (past_of self.now) []) id.now ≡ None)
            (λ shown. cell_at (with_past position (past_of self.now) []) id.now ≡ Some (cell_of_shown shown)) }
    {
        let mut found = None;
        for ended in &self.ended {
            if ended.is_shown(position) && ended.row.id == *id {
                found = Some(ended.row.shown());
            }
        }
        found
    }

    /// Puts the versions in that are shown at this position, each in the place of an earlier one of its record.
    pub(crate) fn put_shown(
        &self,
        position: u64,
        rows: &mut BTreeMap<RecordId, Row>,
    ) -> Result<(), AllocError>
        ensures { OnOk result (table_in rows.new.entries ≡ with_past position (past_of self.now) (table_in rows.old.entries)) }
    {
        for ended in &self.ended {
            if ended.is_shown(position) {
                put_shared(rows, &ended.row)?;
            }
        }
        Ok(())
    }

    /// The versions that are shown at this position, each in the place of an earlier one of its record, and whose records come behind the one and not
    /// behind the other.
    pub(crate) fn shown_within(
        &self,
        alloc: Global,
        position: u64,
        after: Option<&RecordId>,
        until: Option<&RecordId>,
    ) -> Result<BTreeMap<RecordId, Row>, AllocError>
        ensures { IfOk result (λ rows. table_in rows.entries ≡ where_key record_cmp (is_within (option_copied after.entry) (option_copied until.entry)) (with_past position (past_of self.now) [])) }
    {
        let mut rows = BTreeMap::new(alloc);
        for ended in &self.ended {
            if ended.is_shown_within(position, after, until) {
                put_shared(&mut rows, &ended.row)?;
            }
        }
        Ok(rows)
    }
}

/// The place of the first pin of this position.
fn place_of(pins: &[u64], position: u64) -> Option<usize>
    ensures { MatchOption result (without_pin position pins.now ≡ pins.now) (λ at. (at < length pins.now) × (without_pin position pins.now ≡ remove pins.now at)) }
{
    for (at, pin) in pins.iter().enumerate() {
        if *pin == position {
            return Some(at);
        }
    }
    None
}

//! The live records as a list of rows in their order.
ghost use Rattle.std.specs.Prelude.{◌≡◌, ℕ, ◌+◌, ◌<◌, ◌≤◌, ◌==◌, ◌++◌, List, length, IsTrue, IfOk, IfErr, vec_len, vec_capacity};
ghost use Rattle.std.specs.Vec.Iter.{into_iter_items, into_iter_len};
ghost use Rattle.std.specs.FinMap.Entries.{is_sorted};
ghost use Rattle.kv_types.specs.declared.place.EntryNo.{EntryNo};
ghost use Rattle.kv_types.specs.Keyspace.{record_cmp};
ghost use Rattle.cmd_core.specs.Contents.{keys_of};
ghost use Rattle.model.specs.declared.group.Put.{Put};
ghost use Rattle.model.specs.Group.{change_of, put_of};
ghost use Rattle.mv_keyspace.specs.Table.{entries_of, place, place_all, puts_of, AreEnded, AreFresh, IsLawful};
ghost use Rattle.mv_keyspace.specs.Row.{records_of, table_of, rows_of_puts, numbers_of, ended_rows};

use crate::counting::{count_others, count_with};
use crate::gathering::{find_row, put_begun, put_ended};
use crate::live::Live;
use crate::loading::sort_rows;
use crate::making::{make_change, stage};
use crate::page_rows::PageRows;
use crate::row::Row;
use crate::sharing::rows_since;
use crate::shown::Shown;
use cmd_core::{
    Lookup, count_fields_in_order, count_keys_in, field_in_order, fields_in_order, has_in_order,
    string_in_order,
};
use kv_types::{EntryNo, Field, RecordId, Refusal, Value};
use model::PlacedChange;
use std::alloc::{AllocError, Global};
use std::collections::BTreeMap;

/// The live records of a node, as a list in their order. It is halved to find a record or the place of one, and the keys are
/// counted as they come and go.
#[derive(Debug, Drop)]
pub struct ListRows {
    rows: Vec<Row>,
    /// How many keys there are.
    keys: u64,
    ghost in_order: { IsTrue (is_sorted record_cmp (records_of rows.items)) },
    ghost counted: { keys ≡ length (keys_of (records_of rows.items)) },
}

impl ListRows {
    ghost use Rattle.std.specs.Prelude.{◌≡◌, ◌==◌, [], length};
    ghost use Rattle.mv_keyspace.specs.Row.{table_of};

    /// A keyspace without records. It takes no memory.
    #[tactic(auto, using(cmd_core::proofs::RecordsLemmas::keys_none))]
    pub fn new(alloc: Global) -> ListRows
        ensures { table_of result.rows.items ≡ [] }
    {
        ListRows {
            rows: Vec::new(alloc),
            keys: 0,
        }
    }
}

impl Lookup for ListRows {
    ghost use Rattle.mv_keyspace.specs.Row.{records_of};

    ghost keyspace = { λ keyspace. records_of keyspace.rows.items };

    fn string(&self, key: &[u8]) -> Option<&Value> {
        string_in_order(&self.rows, key)
    }

    fn field(&self, key: &[u8], field: &[u8]) -> Option<&Value> {
        field_in_order(&self.rows, key, field)
    }

    fn has(&self, key: &[u8]) -> bool {
        has_in_order(&self.rows, key)
    }

    #[tactic(auto, using(crate::proofs::KeyCountLemmas::keys_few_rows))]
    fn count_keys(&self) -> u64 {
        self.keys
    }

    fn count_fields(&self, key: &[u8]) -> u64 {
        count_fields_in_order(&self.rows, key)
    }

    fn fields(&self, alloc: Global, key: &[u8]) -> Result<Vec<(Field, Value)>, AllocError> {
        fields_in_order(alloc, &self.rows, key)
    }
}

impl Live for ListRows {
    ghost use Rattle.mv_keyspace.specs.Row.{table_of, records_of_table};

    ghost table = { λ keyspace. table_of keyspace.rows.items };

    ghost reads = { λ keyspace. records_of_table keyspace.rows.items };

    fn empty(alloc: Global) -> ListRows {
        ListRows::new(alloc)
    }

    fn apply(
        &mut self,
        alloc: Global,
        changes: &[PlacedChange],
        position: u64,
        ended: &mut Vec<EntryNo>,
    ) -> Result<(), Refusal> {
        // All that can be refused comes first, so that a refusal changes nothing.
        let staged = stage(alloc, changes, position)?;
        self.rows.reserve(staged.len())?;
        ended.reserve(self.rows.len() + staged.len())?;
        self.keys = play(&mut self.rows, self.keys, changes, staged, ended);
        Ok(())
    }

    fn load(&mut self, _alloc: Global, mut rows: Vec<Row>) -> Result<(), Refusal> {
        sort_rows(&mut rows);
        self.keys = count_keys_in(&rows);
        self.rows = rows;
        Ok(())
    }

    fn since(&self, alloc: Global, from: u64) -> Result<Vec<Row>, Refusal> {
        Ok(rows_since(alloc, &self.rows, from)?)
    }

    fn noted(
        &self,
        alloc: Global,
        changes: &[PlacedChange],
    ) -> Result<BTreeMap<RecordId, Row>, Refusal> {
        let mut noted = BTreeMap::new(alloc);
        for change in changes {
            put_ended(&mut noted, &self.rows, change)?;
        }
        Ok(noted)
    }

    fn find(&self, id: &RecordId) -> Option<Shown<'_>> {
        find_row(&self.rows, id)
    }

    fn put_begun(&self, position: u64, rows: &mut BTreeMap<RecordId, Row>) -> Result<(), Refusal> {
        Ok(put_begun(rows, &self.rows, position)?)
    }

    fn begun_after(
        &self,
        alloc: Global,
        position: u64,
        after: Option<&RecordId>,
        bytes: u64,
    ) -> Result<Vec<Row>, Refusal> {
        let mut page = PageRows::new(alloc, bytes);
        page.take_after(&self.rows, position, after)?;
        Ok(page.into_rows())
    }

    fn count(&self) -> u64 {
        self.rows.len() as u64
    }
}

/// Makes the changes, whose puts have their rows staged, and returns how many keys there are then; there were `keys`.
/// The entries that the changes ended come after those in `ended`. There is room for everything that the changes add.
fn play(
    rows: &mut Vec<Row>,
    keys: u64,
    changes: &[PlacedChange],
    staged: Vec<Row>,
    ended: &mut Vec<EntryNo>,
) -> u64
    requires lawful { IsLawful (table_of rows.old.items) }
    requires fresh { AreFresh (table_of rows.old.items) (puts_of changes.now) }
    requires staged { (position : ℕ) × (table_of staged.items ≡ rows_of_puts position (puts_of changes.now)) }
    requires counted { keys ≡ length (keys_of (records_of rows.old.items)) }
    requires room { vec_len rows.old + vec_len staged ≤ vec_capacity rows.old }
    requires room_for_ended { vec_len ended.old + (vec_len rows.old + vec_len staged) ≤ vec_capacity ended.old }
    ensures table { (position : ℕ) → table_of staged.items ≡ rows_of_puts position (puts_of changes.now)
        → table_of rows.new.items ≡ place_all position (table_of rows.old.items) changes.now }
    ensures ended { (position : ℕ) → table_of staged.items ≡ rows_of_puts position (puts_of changes.now)
        → (more : List EntryNo) × (ended.new.items ≡ ended.old.items ++ more) × AreEnded position (table_of rows.old.items) changes.now more }
    ensures counted { result ≡ length (keys_of (records_of rows.new.items)) }
{
    let mut count = keys;
    let mut staged = staged.into_iter();
    for change in changes {
        let others = count_others(rows, count, change);
        make_change(rows, change, &mut staged, ended);
        count = count_with(rows, others, change);
    }
    count
}

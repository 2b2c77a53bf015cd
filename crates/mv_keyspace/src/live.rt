//! The live records of a keyspace, as one of its kinds keeps them.
ghost use Rattle.std.specs.Prelude.{◌≡◌, None, Some, ◌++◌, ◌-◌, ◌^◌, [], List, length, min, OnOk, OnErr, IfErr, IfOk, MatchOption};
ghost use Rattle.std.specs.Option.{option_copied};
ghost use Rattle.kv_types.specs.declared.place.EntryNo.{EntryNo};
ghost use Rattle.kv_types.specs.declared.refusal.Refusal.TheVariants.{Memory};
ghost use Rattle.mv_keyspace.specs.Loading.{AreCompatible, HasRows};
ghost use Rattle.mv_keyspace.specs.Paging.{filled, rows_after};
ghost use Rattle.mv_keyspace.specs.Row.{table_of};
ghost use Rattle.mv_keyspace.specs.Table.{Table, cell_at, records, place_all, puts_of, since, AreEnded, AreFresh, IsLawful};
ghost use Rattle.mv_keyspace.specs.Version.{cell_of_shown};
ghost use Rattle.mv_keyspace.specs.Versions.{begun_at, rows_ended, table_in, with_rows};

use crate::row::Row;
use crate::shown::Shown;
use cmd_core::Lookup;
use kv_types::{EntryNo, RecordId, Refusal};
use model::PlacedChange;
use std::alloc::Global;
use std::collections::BTreeMap;

/// The live records of a node, each with its value, its entry and the position of its change.
pub trait Live: Lookup {
    /// Each live record with its value, its entry and the position at which it was put, in the order of records.
    ghost table: { Self → Table };

    /// A keyspace without records. It takes no memory.
    fn empty(alloc: Global) -> Self
        ensures { table result ≡ [] };

    /// Makes all changes of a command or of a frame at this position of the list, and appends the entries that they ended, each once, to
    /// those in `ended`. Refused with `Memory` where a growth was refused, and then nothing has changed.
    fn apply(
        &mut self,
        alloc: Global,
        changes: &[PlacedChange],
        position: u64,
        ended: &mut Vec<EntryNo>,
    ) -> Result<(), Refusal>
        requires lawful { IsLawful (table self.old) }
        requires fresh { AreFresh (table self.old) (puts_of changes.now) }
        ensures table { OnOk result (table self.new ≡ place_all position (table self.old) changes.now) }
        ensures ended { OnOk result ((more : List EntryNo) × (ended.new.items ≡ ended.old.items ++ more) × AreEnded position (table self.old) changes.now more) }
        ensures err { OnErr result (table self.new ≡ table self.old) }
        ensures ended_stays { OnErr result (ended.new.items ≡ ended.old.items) }
        ensures cause { IfErr result (λ refusal. refusal ≡ Memory) };

    /// Takes these rows, in any order, as all that the keyspace holds. Refused with `Memory` where a growth was refused, and then it is still
    /// empty.
    fn load(&mut self, alloc: Global, rows: Vec<Row>) -> Result<(), Refusal>
        requires empty { table self.old ≡ [] }
        requires compatible { AreCompatible (table_of rows.items) }
        ensures ok { OnOk result (HasRows (table_of rows.items) (table self.new)) }
        ensures err { OnErr result (table self.new ≡ []) }
        ensures cause { IfErr result (λ refusal. refusal ≡ Memory) };

    /// The live records whose change came after the position `from` of the list, in the order of records. They share their bytes with the keyspace.
    /// Refused with `Memory` where a growth was refused.
    fn since(&self, alloc: Global, from: u64) -> Result<Vec<Row>, Refusal>
        ensures ok { IfOk result (λ rows. table_of rows.items ≡ since from (table self.now)) }
        ensures cause { IfErr result (λ refusal. refusal ≡ Memory) };

    /// The live rows that the changes end, by their records. They share their bytes with the keyspace. Refused with `Memory` where a growth
    /// was refused.
    fn noted(
        &self,
        alloc: Global,
        changes: &[PlacedChange],
    ) -> Result<BTreeMap<RecordId, Row>, Refusal>
        ensures ok { IfOk result (λ noted. table_in noted.entries ≡ rows_ended changes.now (table self.now)) }
        ensures cause { IfErr result (λ refusal. refusal ≡ Memory) };

    /// What a live record holds.
    fn find(&self, id: &RecordId) -> Option<Shown<'_>>
        ensures { MatchOption result (cell_at (table self.now) id.now ≡ None) (λ shown. cell_at (table self.now) id.now ≡ Some (cell_of_shown shown)) };

    /// Puts the live rows in that had begun at a position, each in the place of one of its record. Refused with `Memory` where a growth was refused.
    fn put_begun(&self, position: u64, rows: &mut BTreeMap<RecordId, Row>) -> Result<(), Refusal>
        ensures ok { OnOk result (table_in rows.new.entries ≡ with_rows (begun_at position (table self.now)) (table_in rows.old.entries)) }
        ensures cause { IfErr result (λ refusal. refusal ≡ Memory) };

    /// The next live rows that had begun at a position, behind this record (all, where there is none), in the order of records, until they have more
    /// than so many bytes together as puts of a frame. They share their bytes with the keyspace. Refused with `Memory` where a growth was refused.
    fn begun_after(
        &self,
        alloc: Global,
        position: u64,
        after: Option<&RecordId>,
        bytes: u64,
    ) -> Result<Vec<Row>, Refusal>
        ensures ok { IfOk result (λ rows. table_of rows.items ≡ filled bytes [] (begun_at position (rows_after (option_copied after.entry) (table self.now)))) }
        ensures cause { IfErr result (λ refusal. refusal ≡ Memory) };

    /// How many records are live, or 2^64 - 1 if there are more.
    fn count(&self) -> u64
        ensures { result ≡ min (length (table self.now)) (2 ^ 64 - 1) };

    /// What a command reads is the table.
    ghost reads: { (k : Self) → Self.keyspace k ≡ records (table k) };
}

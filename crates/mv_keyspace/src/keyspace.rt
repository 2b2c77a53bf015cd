//! The keyspace as a sequencer and a standby see it.
ghost use Rattle.std.specs.Prelude.{◌≡◌, ℕ, ◌+◌, ◌-◌, ◌^◌, ◌<◌, ◌++◌, [], ◌∷◌, List, length, max, min, Contains, None, Some, OnOk, OnErr, IfErr, IfOk, MatchOption};
ghost use Rattle.std.specs.Option.{option_copied};
ghost use Rattle.kv_types.specs.declared.place.EntryNo.{EntryNo};
ghost use Rattle.kv_types.specs.declared.refusal.Refusal.TheVariants.{Memory};
ghost use Rattle.mv_keyspace.specs.Loading.{AreCompatible, HasRows};
ghost use Rattle.mv_keyspace.specs.Paging.{page, rows_after};
ghost use Rattle.mv_keyspace.specs.Row.{table_of};
ghost use Rattle.mv_keyspace.specs.Table.{Table, cell_at, records, place_all, puts_of, since, AreEnded, AreFresh, IsLawful};
ghost use Rattle.mv_keyspace.specs.Version.{cell_of_shown};
ghost use Rattle.mv_keyspace.specs.Versions.{Versions, kept, last_among, reclaimed, shown, without_pin};

use crate::pin::Pin;
use crate::row::Row;
use crate::shown::Shown;
use cmd_core::Lookup;
use kv_types::{EntryNo, RecordId, Refusal};
use model::PlacedChange;
use std::alloc::Global;

/// The live records of a node, each with its value, its entry and the position of its change, and those that were live at the positions that are
/// pinned.
pub trait Keyspace: Lookup {
    /// Each live record with its value, its entry and the position at which it was put, in the order of records.
    ghost table: { Self → Table };

    /// The versions that ended and are still held, the last that ended at the end.
    ghost past: { Self → Versions };

    /// The positions that are pinned, each as often as it is.
    ghost pins: { Self → List ℕ };

    /// The position of the last change: the greatest at which changes were made, or at which a row began that was loaded, 0 before the first.
    ghost last: { Self → ℕ };

    /// A keyspace without records. It takes no memory.
    fn empty(alloc: Global) -> Self
        ensures none { table result ≡ [] }
        ensures past { past result ≡ [] }
        ensures pins { pins result ≡ [] }
        ensures last { last result ≡ 0 };

    /// Makes all changes of a command or of a frame at this position of the list, and appends the entries that they ended, each once, to
    /// those in `ended`. While a position is pinned, the versions that end are kept, and a position below this one shows what it showed.
    /// Refused with `Memory` where a growth was refused, and then nothing has changed.
    fn apply(
        &mut self,
        alloc: Global,
        changes: &[PlacedChange],
        position: u64,
        ended: &mut Vec<EntryNo>,
    ) -> Result<(), Refusal>
        requires lawful { IsLawful (table self.old) }
        requires fresh { AreFresh (table self.old) (puts_of changes.now) }
        ensures table { OnOk result (table self.new ≡ place_all position (table self.old) changes.now) }
        ensures ended { OnOk result ((more : List EntryNo) × (ended.new.items ≡ ended.old.items ++ more) × AreEnded position (table self.old) changes.now more) }
        ensures err { OnErr result (table self.new ≡ table self.old) }
        ensures ended_stays { OnErr result (ended.new.items ≡ ended.old.items) }
        ensures cause { IfErr result (λ refusal. refusal ≡ Memory) }
        ensures pins { pins self.new ≡ pins self.old }
        ensures past { OnOk result (past self.new ≡ past self.old ++ kept (pins self.old) position changes.now (table self.old)) }
        ensures past_stays { OnErr result (past self.new ≡ past self.old) }
        ensures last { OnOk result (last self.new ≡ max (last self.old) position) }
        ensures last_stays { OnErr result (last self.new ≡ last self.old) }
        ensures shown { OnOk result ((pin : ℕ) → Contains (pins self.old) pin → pin < position
            → shown pin (table self.new) (past self.new) ≡ shown pin (table self.old) (past self.old)) };

    /// Takes these rows, in any order, as all that the keyspace holds. Refused with `Memory` where a growth was refused, and then it is still
    /// empty.
    fn load(&mut self, alloc: Global, rows: Vec<Row>) -> Result<(), Refusal>
        requires empty { table self.old ≡ [] }
        requires compatible { AreCompatible (table_of rows.items) }
        ensures ok { OnOk result (HasRows (table_of rows.items) (table self.new)) }
        ensures err { OnErr result (table self.new ≡ []) }
        ensures cause { IfErr result (λ refusal. refusal ≡ Memory) }
        ensures past { past self.new ≡ past self.old }
        ensures pins { pins self.new ≡ pins self.old }
        ensures last { last self.new ≡ last_among (last self.old) (table_of rows.items) };

    /// What a live record holds.
    fn version(&self, id: &RecordId) -> Option<Shown<'_>>
        ensures { MatchOption result (cell_at (table self.now) id.now ≡ None) (λ version. cell_at (table self.now) id.now ≡ Some (cell_of_shown version)) };

    /// The live records whose change came after the position `from` of the list, in the order of records. They share their bytes with the keyspace.
    /// Refused with `Memory` where a growth was refused.
    fn since(&self, alloc: Global, from: u64) -> Result<Vec<Row>, Refusal>
        ensures ok { IfOk result (λ rows. table_of rows.items ≡ since from (table self.now)) }
        ensures cause { IfErr result (λ refusal. refusal ≡ Memory) };

    /// Pins the position of the last change: what is live there can be looked at until the pin is given back. Refused with `Memory` where a growth
    /// was refused, and then nothing is pinned.
    fn pin(&mut self) -> Result<Pin, Refusal>
        ensures table { table self.new ≡ table self.old }
        ensures past { past self.new ≡ past self.old }
        ensures position { IfOk result (λ pin. pin.position ≡ last self.old) }
        ensures last { last self.new ≡ last self.old }
        ensures pins { IfOk result (λ pin. pins self.new ≡ pins self.old ++ pin.position ∷ []) }
        ensures shown { IfOk result (λ pin. shown pin.position (table self.new) (past self.new) ≡ table self.old) }
        ensures err { OnErr result (pins self.new ≡ pins self.old) }
        ensures cause { IfErr result (λ refusal. refusal ≡ Memory) };

    /// The version of a record that a pin shows: the newest that had begun by its position and had not ended.
    fn view(&self, pin: &Pin, id: &RecordId) -> Option<Shown<'_>>
        ensures { MatchOption result (cell_at (shown pin.now.position (table self.now) (past self.now)) id.now ≡ None)
            (λ version. cell_at (shown pin.now.position (table self.now) (past self.now)) id.now ≡ Some (cell_of_shown version)) };

    /// The versions that a pin shows and whose change came after the position `from`, in the order of records. They share their bytes with the
    /// keyspace. Refused with `Memory` where a growth was refused.
    fn view_since(&self, alloc: Global, pin: &Pin, from: u64) -> Result<Vec<Row>, Refusal>
        ensures ok { IfOk result (λ rows. table_of rows.items ≡ since from (shown pin.now.position (table self.now) (past self.now))) }
        ensures cause { IfErr result (λ refusal. refusal ≡ Memory) };

    /// The next versions that a pin shows, behind this record (all, where there is none), in the order of records: as many as have together at most so
    /// many bytes as puts of a frame, and one at least where there is any. They share their bytes with the keyspace. Refused with `Memory` where a
    /// growth was refused.
    fn view_page(
        &self,
        alloc: Global,
        pin: &Pin,
        after: Option<&RecordId>,
        bytes: u64,
    ) -> Result<Vec<Row>, Refusal>
        ensures ok { IfOk result (λ rows. table_of rows.items ≡ page bytes (rows_after (option_copied after.entry) (shown pin.now.position (table self.now) (past self.now)))) }
        ensures cause { IfErr result (λ refusal. refusal ≡ Memory) };

    /// Takes a pin back. The versions that it alone showed are held until they are reclaimed.
    fn unpin(&mut self, pin: Pin)
        ensures table { table self.new ≡ table self.old }
        ensures past { past self.new ≡ past self.old }
        ensures last { last self.new ≡ last self.old }
        ensures pins { pins self.new ≡ without_pin pin.position (pins self.old) };

    /// Drops the versions that ended by the position `horizon` and that no pin shows.
    fn reclaim(&mut self, horizon: u64)
        ensures table { table self.new ≡ table self.old }
        ensures pins { pins self.new ≡ pins self.old }
        ensures last { last self.new ≡ last self.old }
        ensures past { past self.new ≡ reclaimed horizon (pins self.old) (past self.old) }
        ensures shown { (pin : ℕ) → Contains (pins self.old) pin → shown pin (table self.new) (past self.new) ≡ shown pin (table self.old) (past self.old) };

    /// How many versions are held, live ones and those that ended, or 2^64 - 1 if there are more. It takes no memory.
    fn versions(&self) -> u64
        ensures { result ≡ min (length (table self.now) + length (past self.now)) (2 ^ 64 - 1) };

    /// What a command reads is the table.
    ghost reads: { (k : Self) → Self.keyspace k ≡ records (table k) };
}

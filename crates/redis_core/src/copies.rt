//! The sequencer gives a copy of all records as they were at one position, in parts, while calls go on.
ghost use Rattle.std.specs.Prelude.{◌≡◌, [], None, Some, List, OnOk, OnErr, IfOk, IfErr, MatchOption};
ghost use Rattle.kv_types.specs.declared.place.EntryNo.{EntryNo};
ghost use Rattle.kv_types.specs.declared.place.Extent.{Extent};
ghost use Rattle.model.specs.Group.{Contents};
ghost use Rattle.redis_core.specs.Copying.{GivesPart, IsAllGiven, begun_copy, copied_at, mark_of, restarted_copy};
ghost use Rattle.redis_core.specs.Sequencing.{Expects, IsAheadOf, MovesCopy};

use crate::sequencer::Sequencer;
use kv_types::{RecordId, Refusal, Value};
use mv_keyspace::Keyspace;
use std::alloc::Global;

impl<K: Keyspace> Sequencer<K> {
    /// The epoch of each group that is handed out.
    pub fn epoch(&self) -> u64
        ensures { result ≡ (self.now).epoch }
    {
        self.epoch
    }

    /// The position that the copy is of; none where none is being given.
    pub fn copy_at(&self) -> Option<u64>
        ensures { result ≡ copied_at (self.now).copy }
    {
        self.store.copy_at()
    }

    /// The position that the copy is of, with how many parts were given; none where none is being given. The number is 2^64 - 1 if there are more.
    pub fn copy_mark(&self) -> Option<(u64, u64)>
        ensures { result ≡ mark_of (self.now).copy }
    {
        self.store.copy_mark()
    }

    /// Begins a copy of all records as they are at the position of the list, and answers it. The copy before, if there is one, is given up.
    ///
    /// # Errors
    ///
    /// Only `Memory`. Nothing has changed then.
    pub fn begin_copy(&mut self) -> Result<u64, Refusal>
        requires none { (self.old).waiting ≡ [] }
        ensures ok { IfOk result (λ position. position ≡ (self.old).position) }
        ensures begins { OnOk result (MovesCopy self.old (Some (begun_copy (self.old).position (self.old).table)) self.new) }
        ensures moves { MovesCopy self.old (self.new).copy self.new }
        ensures cause { IfErr result (λ refusal. refusal ≡ Refusal.Memory) }
        ensures err { OnErr result (self.new ≡ self.old) }
        ensures stands { (contents : Contents) → IsAheadOf self.old contents → IsAheadOf self.new contents }
        ensures expects { (contents : Contents) (entries : List EntryNo) (extents : List Extent) → IsAheadOf self.old contents
            → Expects self.old contents entries extents → Expects self.new contents entries extents }
    {
        self.store.begin_copy(self.position)?;
        Ok(self.position)
    }

    /// The same copy is given from its first part again. It takes no memory.
    pub fn restart_copy(&mut self)
        ensures restarts { MovesCopy self.old (restarted_copy (self.old).copy) self.new }
        ensures stands { (contents : Contents) → IsAheadOf self.old contents → IsAheadOf self.new contents }
        ensures expects { (contents : Contents) (entries : List EntryNo) (extents : List Extent) → IsAheadOf self.old contents
            → Expects self.old contents entries extents → Expects self.new contents entries extents }
    {
        self.store.restart_copy();
    }

    /// The next part of the copy, as puts: as many records as have together at most so many bytes as puts of a frame, and one at least. None where all were
    /// given, or no copy was begun, and then nothing has changed.
    ///
    /// # Errors
    ///
    /// Only `Memory`. Nothing has changed then.
    pub fn copy_part(
        &mut self,
        alloc: Global,
        bytes: u64,
    ) -> Result<Option<Vec<(RecordId, Value)>>, Refusal>
        ensures given { IfOk result (λ part. MatchOption part (IsAllGiven (self.old).copy × (self.new ≡ self.old))
            (λ puts. GivesPart bytes (self.old).copy puts.items (self.new).copy)) }
        ensures moves { MovesCopy self.old (self.new).copy self.new }
        ensures cause { IfErr result (λ refusal. refusal ≡ Refusal.Memory) }
        ensures err { OnErr result (self.new ≡ self.old) }
        ensures stands { (contents : Contents) → IsAheadOf self.old contents → IsAheadOf self.new contents }
        ensures expects { (contents : Contents) (entries : List EntryNo) (extents : List Extent) → IsAheadOf self.old contents
            → Expects self.old contents entries extents → Expects self.new contents entries extents }
    {
        self.store.copy_part(alloc, bytes)
    }

    /// Gives the copy up: the records that it alone still showed are dropped. It takes no memory.
    pub fn end_copy(&mut self)
        ensures ends { MovesCopy self.old None self.new }
        ensures stands { (contents : Contents) → IsAheadOf self.old contents → IsAheadOf self.new contents }
        ensures expects { (contents : Contents) (entries : List EntryNo) (extents : List Extent) → IsAheadOf self.old contents
            → Expects self.old contents entries extents → Expects self.new contents entries extents }
    {
        self.store.end_copy();
    }
}

//! A primary gives a newcomer a copy of all records as they were at one position, frame by frame, while it serves.
ghost use Rattle.std.specs.Prelude.{◌≡◌, ◌≢◌, ◌↔◌, ◌+◌, [], List, None, Some, IsSome, IsTrue, OnOk, OnErr, IfOk, IfErr};
ghost use Rattle.kv_types.specs.declared.place.EntryNo.{EntryNo};
ghost use Rattle.kv_types.specs.declared.place.Extent.{Extent};
ghost use Rattle.model.specs.Group.{Contents};
ghost use Rattle.redis_core.specs.Copying.{begun_copy, copied_at, restarted_copy};
ghost use Rattle.redis_core.specs.Sequencing.{Expects, IsAheadOf, MovesCopy};
ghost use Rattle.primary.specs.Leading.{KeepsLead};
ghost use Rattle.primary.specs.Recalling.{Recollects};
ghost use Rattle.primary.specs.Sending.{SendsNext};

use crate::frame::{CopyFrame, MAX_PART_BYTES};
use crate::front::Front;
use frames::{CopyEnd, CopyPart};
use kv_types::Refusal;
use mv_keyspace::Keyspace;
use std::alloc::Global;

impl<K: Keyspace> Front<K> {
    /// Whether a changing command waits for a group.
    pub fn has_open(&self) -> bool
        ensures { IsTrue result ↔ ((self.now.sequencer).waiting ≢ []) }
    {
        self.sequencer.has_open()
    }

    /// The position that the copy is of; none where none is being given.
    pub fn copy_at(&self) -> Option<u64>
        ensures { result ≡ copied_at (self.now.sequencer).copy }
    {
        self.sequencer.copy_at()
    }

    /// Begins a copy of all records as they are at the position of the list, and answers it. The copy before, if there is one, is given up.
    ///
    /// # Errors
    ///
    /// Only `Memory`, and then nothing changed.
    pub fn begin_copy(&mut self) -> Result<u64, Refusal>
        requires none { (self.old.sequencer).waiting ≡ [] }
        ensures ok { IfOk result (λ position. position ≡ (self.old.sequencer).position) }
        ensures begins { OnOk result (MovesCopy self.old.sequencer (Some (begun_copy (self.old.sequencer).position (self.old.sequencer).table)) self.new.sequencer) }
        ensures cause { IfErr result (λ refusal. refusal ≡ Refusal.Memory) }
        ensures err { OnErr result (self.new ≡ self.old) }
        ensures stands { (contents : Contents) → IsAheadOf self.old.sequencer contents → IsAheadOf self.new.sequencer contents }
        ensures expects { (contents : Contents) (entries : List EntryNo) (extents : List Extent) → IsAheadOf self.old.sequencer contents
            → Expects self.old.sequencer contents entries extents → Expects self.new.sequencer contents entries extents }
        ensures keeps { KeepsLead self.old.sequencer self.new.sequencer }
        ensures recollects { Recollects self.old.sequencer self.new.sequencer }
    {
        self.sequencer.begin_copy()
    }

    /// The same copy is given from its first part again, to this newcomer or another. It takes no memory.
    pub fn restart_copy(&mut self)
        ensures restarts { MovesCopy self.old.sequencer (restarted_copy (self.old.sequencer).copy) self.new.sequencer }
        ensures stands { (contents : Contents) → IsAheadOf self.old.sequencer contents → IsAheadOf self.new.sequencer contents }
        ensures expects { (contents : Contents) (entries : List EntryNo) (extents : List Extent) → IsAheadOf self.old.sequencer contents
            → Expects self.old.sequencer contents entries extents → Expects self.new.sequencer contents entries extents }
        ensures keeps { KeepsLead self.old.sequencer self.new.sequencer }
        ensures recollects { Recollects self.old.sequencer self.new.sequencer }
    {
        self.sequencer.restart_copy();
    }

    /// The next frame of the copy that was begun: its next part, or its end, once all records were given. The copy is not over with that: it may be given
    /// again.
    ///
    /// # Errors
    ///
    /// Only `Memory`, and then nothing changed.
    pub fn copy_part(&mut self, alloc: Global) -> Result<CopyFrame, Refusal>
        requires begun { IsSome (self.old.sequencer).copy }
        ensures sends { IfOk result (λ frame. SendsNext (self.old.sequencer).epoch (self.old.sequencer).copy frame (self.new.sequencer).copy) }
        ensures moves { MovesCopy self.old.sequencer (self.new.sequencer).copy self.new.sequencer }
        ensures cause { IfErr result (λ refusal. refusal ≡ Refusal.Memory) }
        ensures err { OnErr result (self.new ≡ self.old) }
        ensures stands { (contents : Contents) → IsAheadOf self.old.sequencer contents → IsAheadOf self.new.sequencer contents }
        ensures expects { (contents : Contents) (entries : List EntryNo) (extents : List Extent) → IsAheadOf self.old.sequencer contents
            → Expects self.old.sequencer contents entries extents → Expects self.new.sequencer contents entries extents }
        ensures keeps { KeepsLead self.old.sequencer self.new.sequencer }
        ensures recollects { Recollects self.old.sequencer self.new.sequencer }
    {
        let epoch = self.sequencer.epoch();
        let Some((position, number)) = self.sequencer.copy_mark() else {
            unreachable!()
        };
        match self.sequencer.copy_part(alloc, MAX_PART_BYTES)? {
            Some(puts) => Ok(CopyFrame::Part(CopyPart {
                epoch,
                position,
                number,
                puts,
            })),
            None => Ok(CopyFrame::End(CopyEnd {
                epoch,
                position,
                parts: number,
            })),
        }
    }

    /// Gives the copy up: the records that it alone still showed are dropped. It takes no memory.
    pub fn end_copy(&mut self)
        ensures ends { MovesCopy self.old.sequencer None self.new.sequencer }
        ensures stands { (contents : Contents) → IsAheadOf self.old.sequencer contents → IsAheadOf self.new.sequencer contents }
        ensures expects { (contents : Contents) (entries : List EntryNo) (extents : List Extent) → IsAheadOf self.old.sequencer contents
            → Expects self.old.sequencer contents entries extents → Expects self.new.sequencer contents entries extents }
        ensures keeps { KeepsLead self.old.sequencer self.new.sequencer }
        ensures recollects { Recollects self.old.sequencer self.new.sequencer }
    {
        self.sequencer.end_copy();
    }
}

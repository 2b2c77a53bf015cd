//! Room for a frame that has none, once all that had ended is freed.
ghost use Rattle.std.specs.Prelude.{◌≡◌, ◌⊎◌, ◌↔◌, ◌<◌, ◌≤◌, [], true, false, IsTrue, IfOk, OnOk, OnErr, IsErrOf, Ok, Err};
ghost use Rattle.kv_types.specs.declared.refusal.Refusal.TheVariants.{Fault};
ghost use Rattle.model.specs.declared.group.TheConstants.{MAX_PARTS};
ghost use Rattle.placing.specs.Place.{HasRoomFor};
ghost use Rattle.wbl_engine.specs.Contents.{IsDurable};
ghost use Rattle.frames.specs.declared.frame.Frame.{Frame as SomeFrame};
ghost use Rattle.standby.specs.Following.{Follows, HasCountersFor, IsGapless, IsNearLimit, NoGapIsLeft, WouldExhaust};
ghost use Rattle.standby.specs.Moving.{HasCleared};
ghost use Rattle.standby.specs.Spare.{HasRoomAtOnce};
ghost use Rattle.standby.specs.Taking.{Rearranges, Tidies};

use crate::standby::Standby;
use frames::Frame;
use kv_types::Refusal;
use model::{COUNTER_LIMIT, MAX_PARTS, Record, STAMP_WINDOW};
use mv_keyspace::Keyspace;
use placing::{fits_surely, give_all, has_room_for};
use std::alloc::Global;
use wbl_engine::Durable;

impl<E: Durable, K: Keyspace> Standby<E, K> {
    /// Makes room for a frame that has none: below the spare place where that is free (`make_room_below`), and else in the whole image: it clears the gaps
    /// of the record, the oldest first, and then moves versions, until the frame fits or nothing more is found to do. Where it has room with nothing moved
    /// nothing changes.
    ///
    /// # Errors
    ///
    /// `Memory` if an allocation was refused, `Fault` if a fence failed.
    pub(crate) fn make_room(&mut self, alloc: Global, frame: &Frame) -> Result<(), Refusal>
        requires follows { Follows (E.contents self.old.engine) (K.table self.old.keyspace) self.old.heap [] }
        requires none { self.old.ended.items ≡ [] }
        requires sound { E.is_faulted self.old.engine ≡ false }
        requires durable { IsDurable (E.device self.old.engine) (E.contents self.old.engine) }
        requires counters { ¬ WouldExhaust (E.contents self.old.engine).current frame.now }
        ensures rearranges { Rearranges E.device E.contents E.is_faulted K.table frame.now self.old result self.new }
        ensures unmoved { HasRoomAtOnce (E.contents self.old.engine).lines self.old.heap frame.now → self.new ≡ self.old }
        ensures done { OnOk result (HasRoomFor self.new.heap frame.now.changes.items
            ⊎ NoGapIsLeft (E.contents self.new.engine).current self.new.heap frame.now) }
    {
        if self.make_room_below(alloc, frame)? {
            return Ok(());
        }
        if fits_surely(&self.heap, &frame.changes) {
            return Ok(());
        }
        if self.clear_gaps(alloc, frame)? {
            return Ok(());
        }
        let end = self.engine.lines();
        self.move_for(alloc, frame, end)?;
        Ok(())
    }

    /// Clears the gaps of the record, the oldest first, until the frame fits. Answers whether it does.
    ///
    /// # Errors
    ///
    /// `Memory` if an allocation was refused, `Fault` if a fence failed.
    pub(crate) fn clear_gaps(&mut self, alloc: Global, frame: &Frame) -> Result<bool, Refusal>
        requires follows { Follows (E.contents self.old.engine) (K.table self.old.keyspace) self.old.heap [] }
        requires none { self.old.ended.items ≡ [] }
        requires sound { E.is_faulted self.old.engine ≡ false }
        requires durable { IsDurable (E.device self.old.engine) (E.contents self.old.engine) }
        requires counters { ¬ WouldExhaust (E.contents self.old.engine).current frame.now }
        ensures rearranges { Rearranges E.device E.contents E.is_faulted K.table frame.now self.old result self.new }
        ensures unmoved { HasRoomFor self.old.heap frame.now.changes.items → (self.new ≡ self.old) × OnOk result (result ≡ Ok true) }
        ensures fits { result ≡ Ok true → HasRoomFor self.new.heap frame.now.changes.items }
        ensures gapless { result ≡ Ok false → IsGapless (E.contents self.new.engine).current }
    {
        while !self.fits(alloc, frame)? {
            if !self.clear_gap(alloc)? {
                return Ok(false);
            }
        }
        Ok(true)
    }

    /// Whether the frame has room.
    ///
    /// # Errors
    ///
    /// Only `Memory`.
    pub(crate) fn fits(&mut self, alloc: Global, frame: &Frame) -> Result<bool, Refusal>
        ensures fits { IfOk result (λ fits. IsTrue fits ↔ HasRoomFor self.old.heap frame.now.changes.items) }
        ensures same { self.new ≡ self.old }
        ensures cause { OnErr result (result ≡ Err Refusal.Memory) }
    {
        has_room_for(alloc, &mut self.heap, &frame.changes)
    }

    /// Clears the oldest gap of the record, and gives the heap the entries that were begun in it. Answers whether it did: not where there is none, or
    /// where the counters are near their limit.
    ///
    /// # Errors
    ///
    /// `Memory` if an allocation was refused, with nothing changed. `Fault` if a fence failed.
    pub(crate) fn clear_gap(&mut self, alloc: Global) -> Result<bool, Refusal>
        requires follows { Follows (E.contents self.old.engine) (K.table self.old.keyspace) self.old.heap [] }
        requires none { self.old.ended.items ≡ [] }
        requires sound { E.is_faulted self.old.engine ≡ false }
        requires durable { IsDurable (E.device self.old.engine) (E.contents self.old.engine) }
        ensures tidies { Tidies E.device E.contents E.is_faulted K.table self.old result self.new }
        ensures cleared { result ≡ Ok true → HasCleared (E.contents self.old.engine) (E.contents self.new.engine) self.old.heap self.new.heap }
        ensures none_left { result ≡ Ok false → self.new ≡ self.old }
        ensures copying { E.is_copying self.new.engine ≡ E.is_copying self.old.engine }
        // what comes next has its counters still
        ensures counters { (frame : SomeFrame) → ¬ WouldExhaust (E.contents self.old.engine).current frame → ¬ IsErrOf result Fault
            → ¬ WouldExhaust (E.contents self.new.engine).current frame }
    {
        let current = self.engine.record();
        if has_no_gap(current) || is_near_limit(current) {
            return Ok(false);
        }
        let freed = self.engine.clear_gap(alloc)?;
        give_all(&mut self.heap, &freed.entries, &freed.extents);
        Ok(true)
    }
}

/// Whether the record has no gap.
fn has_no_gap(current: &Record) -> bool
    ensures { IsTrue result ↔ ((current.now).gaps.items ≡ []) }
{
    current.gaps.is_empty()
}

/// Whether one more record or one more stamp would leave the commit behind it no counter.
pub(crate) fn is_near_limit(current: &Record) -> bool
    ensures { IsTrue result ↔ IsNearLimit current.now }
{
    current.cp >= COUNTER_LIMIT - STAMP_WINDOW - 3 || current.number >= COUNTER_LIMIT - 2
}

/// How many versions may be moved under the next record, at most `MAX_PARTS`, so that the commit behind it still has its counters.
pub(crate) fn moves_left(current: &Record) -> u64
    ensures few { result ≤ MAX_PARTS }
    ensures counters { 0 < result → HasCountersFor result current.now }
    ensures none { result ≡ 0 ↔ IsNearLimit current.now }
{
    if is_near_limit(current) {
        return 0;
    }
    let stamps = COUNTER_LIMIT - STAMP_WINDOW - 3 - current.cp;
    stamps.min(MAX_PARTS as u64)
}

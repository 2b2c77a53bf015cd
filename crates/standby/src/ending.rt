//! How a copy ends, and the newcomer is a standby.
ghost use Rattle.std.specs.Prelude.{◌≡◌, ◌↔◌, [], IsTrue};
ghost use Rattle.wbl_engine.specs.Copying.{ExhaustsCopy};
ghost use Rattle.standby.specs.Copies.{HasAll};
ghost use Rattle.standby.specs.Gathering.{IsAt};
ghost use Rattle.standby.specs.Newcomers.{AwaitsCopy, Completes, EndsCopy, HasCopy};
ghost use Rattle.standby.specs.Taking.{Stands};

use crate::copies::{EndStep, end_step};
use crate::newcomer::Newcomer;
use crate::standby::Standby;
use frames::{Ack, CopyEnd};
use kv_types::Refusal;
use model::{COUNTER_LIMIT, Record, STAMP_WINDOW};
use mv_keyspace::Keyspace;
use std::alloc::Global;
use wbl_engine::Durable;

impl<E: Durable, K: Keyspace + Drop> Newcomer<E, K> {
    /// Takes the end of a copy of its epoch, and acknowledges its position. Where it has all the parts, they count from now on, all under one record with the
    /// role of a standby. The copy of 0 parts is empty: what there is of another is dropped first. After it `into_standby` makes the standby of it.
    ///
    /// It can be called where `take_part` can.
    ///
    /// # Errors
    ///
    /// `WrongEpoch` for another epoch, `PositionGap` where it has not all the parts, `Exhausted` if a counter would reach 2^62, `Memory` if an allocation
    /// was refused: nothing changed. `Fault` if a fence failed: a crash leaves the newcomer without a copy or the standby with all of it, and the image has
    /// to be opened again.
    pub fn end_copy(&mut self, alloc: Global, end: CopyEnd) -> Result<Ack, Refusal>
        requires { AwaitsCopy E.device E.contents E.is_faulted E.staged K.table self.old }
        ensures { EndsCopy E.device E.contents E.is_faulted E.staged K.table end self.old result self.new }
    {
        if end.epoch != self.epoch() {
            return Err(Refusal::WrongEpoch);
        }
        match end_step(&self.half, end.position, end.parts) {
            EndStep::Completes => self.end_whole(end),
            EndStep::Empties => self.end_empty(alloc, end),
            EndStep::Misplaced => Err(Refusal::PositionGap),
        }
    }

    /// Ends the copy of which it has all the parts.
    ///
    /// # Errors
    ///
    /// `Exhausted` and `Fault`, as at `end_copy`.
    fn end_whole(&mut self, end: CopyEnd) -> Result<Ack, Refusal>
        requires awaits { AwaitsCopy E.device E.contents E.is_faulted E.staged K.table self.old }
        requires own { end.epoch ≡ (E.contents self.old.engine).current.epoch }
        requires all { HasAll self.old.half end.position end.parts }
        ensures { EndsCopy E.device E.contents E.is_faulted E.staged K.table end self.old result self.new }
    {
        if exhausts_copy(self.engine.record(), end.position) {
            return Err(Refusal::Exhausted);
        }
        self.complete(end.position)?;
        Ok(Ack::of_engine(&self.engine))
    }

    /// Ends a copy of 0 parts.
    ///
    /// # Errors
    ///
    /// `Exhausted`, `Memory` and `Fault`, as at `end_copy`.
    fn end_empty(&mut self, alloc: Global, end: CopyEnd) -> Result<Ack, Refusal>
        requires awaits { AwaitsCopy E.device E.contents E.is_faulted E.staged K.table self.old }
        requires own { end.epoch ≡ (E.contents self.old.engine).current.epoch }
        requires none { end.parts ≡ 0 }
        ensures { EndsCopy E.device E.contents E.is_faulted E.staged K.table end self.old result self.new }
    {
        if exhausts_copy(self.engine.record(), end.position) {
            return Err(Refusal::Exhausted);
        }
        self.drop_half(alloc)?;
        self.complete(end.position)?;
        Ok(Ack::of_engine(&self.engine))
    }

    /// Makes all that is staged count at this position.
    ///
    /// # Errors
    ///
    /// Only `Fault`.
    fn complete(&mut self, position: u64) -> Result<(), Refusal>
        requires awaits { AwaitsCopy E.device E.contents E.is_faulted E.staged K.table self.old }
        requires at { IsAt self.old.half position }
        requires counters { ¬ ExhaustsCopy (E.contents self.old.engine).current position }
        ensures { Completes E.device E.contents E.is_faulted E.staged K.table position self.old result self.new }
    {
        self.engine.commit_staged(position)?;
        self.half = None;
        Ok(())
    }

    /// The standby that the newcomer is once its copy has ended. It takes no memory.
    pub fn into_standby(self, alloc: Global) -> Standby<E, K>
        requires { HasCopy E.device E.contents E.is_faulted E.staged K.table self }
        ensures stands { Stands E.device E.contents E.is_faulted K.table result }
        ensures engine { result.engine ≡ self.engine }
        ensures keyspace { result.keyspace ≡ self.keyspace }
        ensures heap { result.heap ≡ self.heap }
        ensures none { result.ended.items ≡ [] }
    {
        Standby {
            engine: self.engine,
            keyspace: self.keyspace,
            heap: self.heap,
            ended: Vec::new(alloc),
        }
    }
}

/// Whether the record that ends a copy at this position would bring a counter to its limit.
pub(crate) fn exhausts_copy(current: &Record, position: u64) -> bool
    ensures { IsTrue result ↔ ExhaustsCopy current.now position }
{
    current.cp >= COUNTER_LIMIT - STAMP_WINDOW - 2
        || position >= COUNTER_LIMIT
        || current.number >= COUNTER_LIMIT - 1
}

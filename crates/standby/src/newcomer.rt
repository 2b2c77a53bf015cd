//! The newcomer, and how it takes the parts of a copy.
ghost use Rattle.std.specs.Prelude.{◌≡◌, ◌↔◌, IsTrue};
ghost use Rattle.placing.specs.Fill.{fill_of};
ghost use Rattle.standby.specs.Copies.{BeginsCopy, IsNextPart, Rise, last_of};
ghost use Rattle.standby.specs.Newcomers.{AwaitsCopy, ExhaustsPart, TakesPart};

use crate::copies::{Half, PartStep, part_step};
use crate::ending::exhausts_copy;
use crate::rising::are_rising;
use extent_heap::ExtentHeap;
use frames::CopyPart;
use kv_types::{RecordId, Refusal, Value};
use model::{COUNTER_LIMIT, Record};
use mv_keyspace::Keyspace;
use placing::{Fill, count_fill};
use std::alloc::Global;
use wbl_engine::Durable;

/// A node that gets a copy of all records from the primary of its epoch, and is a standby once it has all of it.
#[derive(Drop)]
pub struct Newcomer<E: Durable, K: Keyspace> {
    pub engine: E,
    /// The records of the parts that it has.
    pub keyspace: K,
    pub heap: ExtentHeap,
    /// How far it has come with a copy, if it has a part of one.
    pub half: Option<Half>,
}

impl<E: Durable, K: Keyspace + Drop> Newcomer<E, K> {
    /// The epoch of its record, which is that of its primary.
    pub fn epoch(&self) -> u64
        ensures { result ≡ (E.contents self.now.engine).current.epoch }
    {
        self.engine.record().epoch
    }

    /// How many keys it has by now, and what of its image is free.
    pub fn fill(&self) -> Fill
        ensures { result ≡ fill_of (K.table self.now.keyspace) self.now.heap }
    {
        count_fill(&self.keyspace, &self.heap)
    }

    /// Takes a part of a copy of its epoch. One that it has changes nothing. The next one of the copy of which it has a half is staged behind what there is;
    /// part 0 of a copy at another position begins that one: what there is of the other is dropped first. A part is not acknowledged: it does not count
    /// before the copy ends.
    ///
    /// It can be called while `AwaitsCopy` holds: after the newcomer was opened, and after each of its calls that did not answer `Fault`, up to the end of
    /// the copy.
    ///
    /// # Errors
    ///
    /// `WrongEpoch` for a part of another epoch, `PositionGap` for any other part, or for one whose records do not rise behind the last one there,
    /// `Exhausted` if a counter would reach 2^62 by this copy: nothing changed. `Full` if the image has no room for the part, `Memory` if an allocation was
    /// refused: nothing changed, but where the part begins another copy there may be no half copy any more. `Fault` if a fence failed: the image has to be
    /// opened again.
    pub fn take_part(&mut self, alloc: Global, part: CopyPart) -> Result<(), Refusal>
        requires { AwaitsCopy E.device E.contents E.is_faulted E.staged K.table self.old }
        ensures { TakesPart E.device E.contents E.is_faulted E.staged K.table part self.old result self.new }
    {
        if part.epoch != self.epoch() {
            return Err(Refusal::WrongEpoch);
        }
        match part_step(&self.half, part.position, part.number) {
            PartStep::Has => Ok(()),
            PartStep::GoesOn => self.take_next(alloc, part),
            PartStep::Begins => self.take_first(alloc, part),
            PartStep::Misplaced => Err(Refusal::PositionGap),
        }
    }

    /// Takes the next part of the copy of which it has a half.
    ///
    /// # Errors
    ///
    /// As at `take_part`.
    fn take_next(&mut self, alloc: Global, part: CopyPart) -> Result<(), Refusal>
        requires awaits { AwaitsCopy E.device E.contents E.is_faulted E.staged K.table self.old }
        requires own { part.epoch ≡ (E.contents self.old.engine).current.epoch }
        requires next { IsNextPart self.old.half part.position part.number }
        ensures { TakesPart E.device E.contents E.is_faulted E.staged K.table part self.old result self.new }
    {
        if !rise_behind(&self.half, &part.puts) {
            return Err(Refusal::PositionGap);
        }
        if exhausts_part(self.engine.record(), &part) {
            return Err(Refusal::Exhausted);
        }
        self.add_part(alloc, part)
    }

    /// Takes the first part of another copy than that of which it has a half.
    ///
    /// # Errors
    ///
    /// As at `take_part`.
    fn take_first(&mut self, alloc: Global, part: CopyPart) -> Result<(), Refusal>
        requires awaits { AwaitsCopy E.device E.contents E.is_faulted E.staged K.table self.old }
        requires own { part.epoch ≡ (E.contents self.old.engine).current.epoch }
        requires begins { BeginsCopy self.old.half part.position part.number }
        ensures { TakesPart E.device E.contents E.is_faulted E.staged K.table part self.old result self.new }
    {
        if !are_rising(&None, &part.puts) {
            return Err(Refusal::PositionGap);
        }
        if exhausts_part(self.engine.record(), &part) {
            return Err(Refusal::Exhausted);
        }
        self.drop_half(alloc)?;
        self.add_part(alloc, part)
    }
}

/// Whether a counter would reach its limit by the copy of which this is a part.
fn exhausts_part(current: &Record, part: &CopyPart) -> bool
    ensures { IsTrue result ↔ ExhaustsPart current.now part.now }
{
    part.number >= COUNTER_LIMIT - 1 || exhausts_copy(current, part.position)
}

/// Whether the records of the puts rise behind the last one of the half copy, if it has one.
fn rise_behind(half: &Option<Half>, puts: &[(RecordId, Value)]) -> bool
    ensures { IsTrue result ↔ Rise (last_of half.now) puts.now }
{
    match half {
        Some(half) => are_rising(&half.last, puts),
        None => are_rising(&None, puts),
    }
}

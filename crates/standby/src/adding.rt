//! How a part of a copy gets its places and is staged.
ghost use Rattle.std.specs.Prelude.{◌≡◌, ◌⊎◌, ◌+◌, ◌++◌, ◌<◌, ◌≤◌, false, length, vec_len, vec_capacity, IfOk, IfErr, OnOk, OnErr, IsErrOf};
ghost use Rattle.kv_types.specs.declared.refusal.Refusal.TheVariants as refusal;
ghost use Rattle.model.specs.declared.image.TheConstants.{COUNTER_LIMIT};
ghost use Rattle.mv_keyspace.specs.Table.{place_all, puts_of};
ghost use Rattle.placing.specs.Left.{IsBeside};
ghost use Rattle.placing.specs.Place.{HasRoomFor};
ghost use Rattle.standby.specs.Copies.{Rise, changes_told, last_of, last_told};
ghost use Rattle.standby.specs.Newcomers.{Adds, AwaitsCopy};
ghost use Rattle.standby.specs.Gathering.{IsAt, PlacesPuts};

use crate::copies::Half;
use crate::newcomer::Newcomer;
use extent_heap::ExtentHeap;
use frames::CopyPart;
use kv_types::{Change, RecordId, Refusal, Value};
use model::{PlacedChange, Put};
use mv_keyspace::Keyspace;
use placing::{empty_part, perform};
use std::alloc::{AllocError, Global};
use wbl_engine::Durable;

impl<E: Durable, K: Keyspace + Drop> Newcomer<E, K> {
    /// Stages a part behind what there is: its records rise behind the last one there.
    ///
    /// # Errors
    ///
    /// `Full` if the image has no room for it, `Memory` if an allocation was refused: nothing changed. `Fault` if a fence failed.
    pub(crate) fn add_part(&mut self, alloc: Global, part: CopyPart) -> Result<(), Refusal>
        requires awaits { AwaitsCopy E.device E.contents E.is_faulted E.staged K.table self.old }
        requires rising { Rise (last_of self.old.half) part.puts.items }
        requires half { IsAt self.old.half part.position }
        requires counted { part.number + 1 < COUNTER_LIMIT }
        ensures { Adds E.device E.contents E.is_faulted E.staged K.table part self.old result self.new }
    {
        let last = last_after(&self.half, &part.puts)?;
        let position = part.position;
        let half = Half {
            position,
            parts: part.number + 1,
            last,
        };
        let puts = place_puts(
            alloc,
            &mut self.keyspace,
            &mut self.heap,
            part.puts,
            position,
        )?;
        self.engine.stage(&puts, position)?;
        self.half = Some(half);
        Ok(())
    }
}

/// The record of the last put, or that of the half copy where there is none.
///
/// # Errors
///
/// Only `Memory`.
fn last_after(half: &Option<Half>, puts: &[(RecordId, Value)]) -> Result<Option<RecordId>, Refusal>
    ensures after { IfOk result (λ after. after ≡ last_told (last_of half.now) puts.now) }
    ensures cause { IfErr result (λ cause. cause ≡ refusal.Memory) }
{
    if let Some(put) = puts.last() {
        return Ok(Some(put.0.clone()?));
    }
    let Some(half) = half else {
        return Ok(None);
    };
    match &half.last {
        Some(id) => Ok(Some(id.clone()?)),
        None => Ok(None),
    }
}

/// The puts with places from the heap, made on the keyspace at this position. They are moved, and what is stored shares their bytes.
///
/// # Errors
///
/// `Full` if the heap has no room for all of them, `Memory` if an allocation was refused: the keyspace and the heap are unchanged.
fn place_puts<K: Keyspace>(
    alloc: Global,
    keyspace: &mut K,
    heap: &mut ExtentHeap,
    puts: Vec<(RecordId, Value)>,
    position: u64,
) -> Result<Vec<Put>, Refusal>
    requires { IsBeside (K.table keyspace.old) heap.old }
    ensures ok { IfOk result (λ placed. PlacesPuts (K.table keyspace.old) heap.old position puts.items placed.items (K.table keyspace.new) heap.new) }
    ensures err { OnErr result ((heap.new ≡ heap.old) × (K.table keyspace.new ≡ K.table keyspace.old)) }
    ensures causes { IfErr result (λ cause. (cause ≡ refusal.Full) ⊎ (cause ≡ refusal.Memory)) }
    ensures full_only { IsErrOf result refusal.Full → ¬ HasRoomFor heap.old (changes_told puts.items) }
{
    let mut placed = Vec::with_capacity(alloc, puts.len())?;
    let changes = changes_of(alloc, puts)?;
    let mut part = empty_part(alloc, position);
    perform(alloc, keyspace, heap, changes, &mut part)?;
    move_puts(part.changes, &mut placed);
    Ok(placed)
}

/// The puts as changes.
///
/// # Errors
///
/// An allocation was refused.
fn changes_of(alloc: Global, puts: Vec<(RecordId, Value)>) -> Result<Vec<Change>, AllocError>
    ensures { IfOk result (λ changes. changes.items ≡ changes_told puts.items) }
{
    let mut changes = Vec::new(alloc);
    for (id, value) in puts {
        changes.push(Change::Put(id, value))?;
    }
    Ok(changes)
}

/// Moves the puts among these changes behind those that were placed. There is room for all of them.
fn move_puts(changes: Vec<PlacedChange>, placed: &mut Vec<Put>)
    requires { vec_len placed.old + length changes.items ≤ vec_capacity placed.old }
    ensures { placed.new.items ≡ placed.old.items ++ puts_of changes.items }
{
    for change in changes {
        if let PlacedChange::Put(put) = change {
            placed.push_reserved(put);
        }
    }
}

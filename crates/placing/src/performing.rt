//! The changes of a command or of a frame, made on the keyspace with places from the heap: all of them, or none.
ghost use Rattle.std.specs.Prelude.{◌≡◌, ◌⊎◌, ◌++◌, ◌<◌, ℕ, [], List, Contains, max, OnOk, OnErr, IfErr, IsErrOf};
ghost use Rattle.model.specs.declared.group.PlacedChange.{PlacedChange};
ghost use Rattle.mv_keyspace.specs.Versions.{kept, shown};
ghost use Rattle.placing.specs.Left.{IsBeside};
ghost use Rattle.placing.specs.Performs.{AddsTo, IsSamePart};
ghost use Rattle.placing.specs.Place.{HasRoomFor};

use crate::places::{give_back, place_all};
use extent_heap::ExtentHeap;
use kv_types::{Change, Refusal};
use model::Part;
use mv_keyspace::Keyspace;
use std::alloc::Global;

/// A part without changes, at this position of the list. It takes no memory.
pub fn empty_part(alloc: Global, position: u64) -> Part
    ensures position { result.position ≡ position }
    ensures changes { result.changes.items ≡ [] }
    ensures ended { result.ended.items ≡ [] }
{
    Part {
        position,
        changes: Vec::new(alloc),
        ended: Vec::new(alloc),
    }
}

/// Makes changes at a part's position of the list, after those that it has, and adds them to it.
///
/// # Errors
///
/// `Full` where the heap has no room for all their puts, `Memory` where a growth was refused. Keyspace, heap and part are then as they were.
///
/// A position that is pinned below the part's shows what it showed.
pub fn perform<K: Keyspace>(
    alloc: Global,
    keyspace: &mut K,
    heap: &mut ExtentHeap,
    changes: Vec<Change>,
    part: &mut Part,
) -> Result<(), Refusal>
    requires { IsBeside (K.table keyspace.old) heap.old }
    ensures ok { OnOk result (AddsTo part.old (K.table keyspace.old) heap.old changes.items part.new (K.table keyspace.new) heap.new) }
    ensures beside { IsBeside (K.table keyspace.new) heap.new }
    ensures table_stays { OnErr result (K.table keyspace.new ≡ K.table keyspace.old) }
    ensures heap_stays { OnErr result (heap.new ≡ heap.old) }
    ensures part_stays { OnErr result (IsSamePart part.old part.new) }
    ensures causes { IfErr result (λ refusal. (refusal ≡ Refusal.Full) ⊎ (refusal ≡ Refusal.Memory)) }
    ensures full_only { IsErrOf result Refusal.Full → ¬ HasRoomFor heap.old changes.items }
    ensures pins { K.pins keyspace.new ≡ K.pins keyspace.old }
    ensures past { OnOk result ((placed : List PlacedChange) × (part.new.changes.items ≡ part.old.changes.items ++ placed)
        × (K.past keyspace.new ≡ K.past keyspace.old ++ kept (K.pins keyspace.old) part.old.position placed (K.table keyspace.old))) }
    ensures past_stays { OnErr result (K.past keyspace.new ≡ K.past keyspace.old) }
    ensures last { OnOk result (K.last keyspace.new ≡ max (K.last keyspace.old) part.old.position) }
    ensures last_stays { OnErr result (K.last keyspace.new ≡ K.last keyspace.old) }
    ensures shown { OnOk result ((pin : ℕ) → Contains (K.pins keyspace.old) pin → pin < part.old.position
        → shown pin (K.table keyspace.new) (K.past keyspace.new) ≡ shown pin (K.table keyspace.old) (K.past keyspace.old)) }
{
    let from = part.changes.len();
    place_all(heap, changes, &mut part.changes)?;
    match keyspace.apply(alloc, &part.changes[from..], part.position, &mut part.ended) {
        Ok(()) => Ok(()),
        Err(refusal) => {
            give_back(heap, &mut part.changes, from);
            Err(refusal)
        }
    }
}

//! The places of new versions: each put takes an entry and an extent from the heap, or none does.
ghost use Rattle.std.specs.Prelude.{◌≡◌, ◌+◌, ◌≤◌, ◌⊎◌, drop, take, length, vec_len, OnOk, OnErr, IfOk, IfErr, IsErrOf};
ghost use Rattle.extent_heap.specs.Room.{Room};
ghost use Rattle.mv_keyspace.specs.Table.{puts_of};
ghost use Rattle.model.specs.Group.{change_of, put_of, bytes_of_id};
ghost use Rattle.model.specs.Image.{lines_of_bytes};
ghost use Rattle.placing.specs.Place.{TakesPlace, TakesPlaces, PlacesAfter, HasRoomFor};
ghost use Rattle.model.specs.declared.group.Put.{Put};
ghost use Rattle.model.specs.declared.group.PlacedChange.{PlacedChange};

use extent_heap::ExtentHeap;
use heap_layout::lines_for;
use kv_types::{Change, RecordId, Refusal, Value};
use model::{PlacedChange, Put};
use std::alloc::Global;

/// Appends the changes to `placed`, each put with a place taken from the heap, in turn. `Refusal::Full` where the heap has no room for all of them,
/// `Refusal::Memory` where a growth was refused; then heap and list are as they were.
pub(crate) fn place_all(
    heap: &mut ExtentHeap,
    changes: Vec<Change>,
    placed: &mut Vec<PlacedChange>,
) -> Result<(), Refusal>
    ensures ok { OnOk result (PlacesAfter heap.old placed.old.items changes.items placed.new.items heap.new) }
    ensures err { OnErr result (heap.new ≡ heap.old) }
    ensures placed_stays { OnErr result (placed.new.items ≡ placed.old.items) }
    ensures causes { IfErr result (λ refusal. (refusal ≡ Refusal.Full) ⊎ (refusal ≡ Refusal.Memory)) }
    ensures full_only { IsErrOf result Refusal.Full → ¬ HasRoomFor heap.old changes.items }
{
    let from = placed.len();
    placed.reserve(changes.len())?;
    for change in changes {
        match place(heap, change) {
            Ok(change) => placed.push_reserved(change),
            Err(refusal) => {
                give_back(heap, placed, from);
                return Err(refusal);
            }
        }
    }
    Ok(())
}

/// The change with its place, if it is a put. `Refusal::Full` where the heap has no room for it, `Refusal::Memory` where a growth was refused; then the
/// heap is as it was.
fn place(heap: &mut ExtentHeap, change: Change) -> Result<PlacedChange, Refusal>
    ensures same { IfOk result (λ placed. change_of placed ≡ change) }
    ensures places { IfOk result (λ placed. TakesPlaces heap.old (put_of placed) heap.new) }
    ensures err { OnErr result (heap.new ≡ heap.old) }
    ensures causes { IfErr result (λ refusal. (refusal ≡ Refusal.Full) ⊎ (refusal ≡ Refusal.Memory)) }
    ensures full_only { IsErrOf result Refusal.Full → (placed : PlacedChange) (left : Room) → change_of placed ≡ change → ¬ TakesPlaces heap.old (put_of placed) left }
{
    match change {
        Change::Put(id, value) => match place_put(heap, id, value) {
            Ok(put) => Ok(PlacedChange::Put(put)),
            Err(refusal) => Err(refusal),
        },
        Change::Drop(id) => Ok(PlacedChange::Drop(id)),
        Change::DropKey(key) => Ok(PlacedChange::DropKey(key)),
        Change::Clear => Ok(PlacedChange::Clear),
    }
}

/// The put of a record, with the lowest free entry and the lowest run of as many free lines as the record needs.
fn place_put(heap: &mut ExtentHeap, id: RecordId, value: Value) -> Result<Put, Refusal>
    ensures same { IfOk result (λ put. (put.id ≡ id) × (put.value ≡ value)) }
    ensures place { IfOk result (λ put. TakesPlace heap.old put heap.new) }
    ensures err { OnErr result (heap.new ≡ heap.old) }
    ensures causes { IfErr result (λ refusal. (refusal ≡ Refusal.Full) ⊎ (refusal ≡ Refusal.Memory)) }
    ensures full_only { IsErrOf result Refusal.Full → (put : Put) (left : Room) → put.id ≡ id → put.value ≡ value → ¬ TakesPlace heap.old put left }
{
    let entry = heap.take_entry()?;
    match heap.take(lines_for(&id, &value)) {
        Ok(extent) => Ok(Put {
            id,
            value,
            entry,
            extent,
        }),
        Err(refusal) => {
            heap.give_entry(entry);
            Err(refusal)
        }
    }
}

/// Takes the changes behind the first `from` out of the list and gives their places back, last first. The heap is then as it was before they
/// were taken.
pub(crate) fn give_back(heap: &mut ExtentHeap, placed: &mut Vec<PlacedChange>, from: usize)
    requires within { from ≤ vec_len placed.old }
    requires taken { (before : Room) × TakesPlaces before (puts_of (drop from placed.old.items)) heap.old }
    ensures heap { (before : Room) → TakesPlaces before (puts_of (drop from placed.old.items)) heap.old → heap.new ≡ before }
    ensures placed { placed.new.items ≡ take from placed.old.items }
{
    while placed.len() > from {
        let change = placed.pop().unwrap();
        give_place_back(heap, change);
    }
}

/// Gives back the place of a change, which was the last to be taken.
fn give_place_back(heap: &mut ExtentHeap, change: PlacedChange)
    requires { (before : Room) × TakesPlaces before (put_of change) heap.old }
    ensures { (before : Room) → TakesPlaces before (put_of change) heap.old → heap.new ≡ before }
{
    if let PlacedChange::Put(put) = change {
        heap.give(put.extent);
        heap.give_entry(put.entry);
    }
}

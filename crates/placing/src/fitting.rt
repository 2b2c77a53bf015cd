//! Whether changes find room, before any is made.
ghost use Rattle.std.specs.Prelude.{◌≡◌, ◌↔◌, ◌++◌, ◌+◌, ◌<◌, IsTrue, length, max, IfOk, IfErr};
ghost use Rattle.extent_heap.specs.Room.{has_room};
ghost use Rattle.placing.specs.Fitting.{fits_surely, lines_wanted, most};
ghost use Rattle.placing.specs.Place.{HasRoomFor};

use crate::places::{give_back, place_all};
use extent_heap::ExtentHeap;
use heap_layout::lines_for;
use kv_types::{Change, Refusal};
use std::alloc::Global;

/// Whether the heap has room for all puts among these changes, in turn, as `perform` would place them. It tries, and gives all back.
///
/// # Errors
///
/// Only `Memory`.
pub fn has_room_for(
    alloc: Global,
    heap: &mut ExtentHeap,
    changes: &Vec<Change>,
) -> Result<bool, Refusal>
    ensures room { IfOk result (λ has. IsTrue has ↔ HasRoomFor heap.old changes.now.items) }
    ensures heap { heap.new ≡ heap.old }
    ensures cause { IfErr result (λ refusal. refusal ≡ Refusal.Memory) }
{
    let copy = changes.clone()?;
    let mut placed = Vec::new(alloc);
    match place_all(heap, copy, &mut placed) {
        Ok(()) => {
            give_back(heap, &mut placed, 0);
            Ok(true)
        }
        Err(Refusal::Full) => Ok(false),
        Err(refusal) => Err(refusal),
    }
}

/// Whether the puts among these changes find room whatever their order: there are as many free entries, and so many extents of the longest of
/// them can be cut from the free runs. It takes no memory, and changes may fit without it.
pub fn fits_surely(heap: &ExtentHeap, changes: &[Change]) -> bool
    ensures { result ≡ fits_surely heap.now changes.now }
{
    let wanted = wanted_by(changes);
    heap.has_room(wanted.count, wanted.longest)
}

/// What the puts among some changes want.
#[derive(Drop)]
pub(crate) struct Wanted {
    /// How many they are.
    pub(crate) count: u64,
    /// How many lines the longest wants, and at least one.
    pub(crate) longest: u64,
}

/// What the puts among these changes want.
pub(crate) fn wanted_by(changes: &[Change]) -> Wanted
    ensures count { result.count ≡ length (lines_wanted changes.now) }
    ensures longest { result.longest ≡ most 1 (lines_wanted changes.now) }
    ensures some { 0 < result.longest }
{
    let mut count: u64 = 0;
    let mut longest: u64 = 1;
    for change in changes {
        if let Change::Put(id, value) = change {
            count = count.saturating_add(1);
            longest = longest.max(lines_for(id, value));
        }
    }
    Wanted { count, longest }
}

//! Whether changes find room below a line, before any is made.
ghost use Rattle.std.specs.Prelude.{◌≡◌, ◌↔◌, ◌++◌, ◌+◌, IsTrue, IfOk, IfErr};
ghost use Rattle.mv_keyspace.specs.Table.{puts_of};
ghost use Rattle.placing.specs.Below.{are_below, fits_surely_below, HasRoomBelow};

use crate::fitting::wanted_by;
use crate::places::{give_back, place_all};
use extent_heap::ExtentHeap;
use kv_types::{Change, Refusal};
use model::PlacedChange;
use std::alloc::Global;

/// Whether the heap has room for all puts among these changes, in turn, as `perform` would place them, and each of them lies below `end`. It tries, and
/// gives all back.
///
/// # Errors
///
/// Only `Memory`.
pub fn has_room_below_for(
    alloc: Global,
    heap: &mut ExtentHeap,
    changes: &Vec<Change>,
    end: u64,
) -> Result<bool, Refusal>
    ensures room { IfOk result (λ has. IsTrue has ↔ HasRoomBelow heap.old changes.now.items end) }
    ensures heap { heap.new ≡ heap.old }
    ensures cause { IfErr result (λ refusal. refusal ≡ Refusal.Memory) }
{
    let copy = changes.clone()?;
    let mut placed = Vec::new(alloc);
    match place_all(heap, copy, &mut placed) {
        Ok(()) => {
            let below = are_below(&placed, end);
            give_back(heap, &mut placed, 0);
            Ok(below)
        }
        Err(Refusal::Full) => Ok(false),
        Err(refusal) => Err(refusal),
    }
}

/// Whether the lines of all puts among these changes end at or below `end`.
fn are_below(placed: &[PlacedChange], end: u64) -> bool
    ensures { result ≡ are_below end (puts_of placed.now) }
{
    for change in placed {
        if let PlacedChange::Put(put) = change
            && (put.extent.lines > end || put.extent.first_line > end - put.extent.lines)
        {
            return false;
        }
    }
    true
}

/// Whether the puts among these changes find room below `end` whatever their order: there are as many free entries, and so many extents of the longest
/// of them can be cut from the free runs below. It takes no memory, and changes may fit there without it.
pub fn fits_surely_below(heap: &ExtentHeap, changes: &[Change], end: u64) -> bool
    ensures { result ≡ fits_surely_below heap.now changes.now end }
{
    let wanted = wanted_by(changes);
    heap.has_room_below(wanted.count, wanted.longest, end)
}

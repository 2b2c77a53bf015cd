//! Places that come back to the heap, of versions that were freed on the image.
ghost use Rattle.std.specs.Prelude.{◌≤◌, length, nat_eq};
ghost use Rattle.std.specs.List.{AllByRecursion, IsDistinct};
ghost use Rattle.extent_heap.specs.Room.{IsOutEntry};
ghost use Rattle.mv_keyspace.specs.Row.{numbers_of};
ghost use Rattle.placing.specs.Back.{AreExtentsApart, CanGiveAll, GivesAll, GivesEntries, GivesExtents, IsTakenExtent};

use extent_heap::ExtentHeap;
use kv_types::{EntryNo, Extent};

/// Gives these entries and extents back, in any order of their places. It asks for no memory.
pub fn give_all(heap: &mut ExtentHeap, entries: &[EntryNo], extents: &[Extent])
    requires { CanGiveAll heap.old entries.now extents.now }
    ensures { GivesAll heap.old entries.now extents.now heap.new }
{
    give_entries(heap, entries);
    give_extents(heap, extents);
}

/// Gives these entries back.
fn give_entries(heap: &mut ExtentHeap, entries: &[EntryNo])
    requires once { IsDistinct nat_eq (numbers_of entries.now) }
    requires out { AllByRecursion (IsOutEntry heap.old) entries.now }
    ensures { GivesEntries heap.old entries.now heap.new }
{
    for &no in entries {
        heap.give_entry(no);
    }
}

/// Gives these extents back.
fn give_extents(heap: &mut ExtentHeap, extents: &[Extent])
    requires apart { AreExtentsApart extents.now }
    requires out { AllByRecursion (IsTakenExtent heap.old) extents.now }
    requires held { length extents.now ≤ (heap.old).held }
    ensures { GivesExtents heap.old extents.now heap.new }
{
    for &extent in extents {
        heap.give(extent);
    }
}

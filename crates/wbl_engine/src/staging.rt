//! What a commit stores before the record: the puts of each part, and the ends of what it ended.
ghost use Rattle.std.specs.Prelude.{◌+◌, ◌^◌, ◌<◌, length, OnOk, OnErr};
ghost use Rattle.std.specs.List.{AllByRecursion};
ghost use Rattle.pmem.specs.Runs.{Runs, Staged, StageFailed, stores, flushes};
ghost use Rattle.model.specs.Layout.{directory_room};
ghost use Rattle.model.specs.Group.{IsPlaced, HasItsLines, put_of, puts_of_part};
ghost use Rattle.heap_layout.specs.Put.{put_lines};
ghost use Rattle.wbl_engine.specs.Stage.{IsWritable, puts_of_changes, puts_of_parts, puts_pairs, end_pairs, part_pairs, parts_pairs, puts_lines, end_lines, part_lines, parts_lines, AreWithin, AreEndsWithin};

use heap_layout::{entry_word, flush_entry, write_entry};
use kv_types::EntryNo;
use model::{Layout, Part, PlacedChange};
use pmem::{Fault, Pmem};

/// Stores the puts and the ends of all parts, flushes their lines, and fences. The first part takes `stamp`, and each later part the next one.
///
/// None of it counts before the record does. On `Err` a fence has failed, and any of the words may be lost, each independently.
pub fn stage_parts<P: Pmem>(device: &mut P, parts: &[Part], stamp: u64) -> Result<(), Fault>
    requires placed { AllByRecursion (IsPlaced (directory_room (P.state device.old).lines) (P.state device.old).lines) (puts_of_parts parts.now) }
    requires fitting { AllByRecursion HasItsLines (puts_of_parts parts.now) }
    requires ends { AreEndsWithin (P.state device.old).lines parts.now }
    requires room { stamp + length parts.now < 2 ^ 64 }
    ensures ok { OnOk result (Staged (P.state device.old) (P.state device.new) (parts_pairs stamp parts.now) (parts_lines parts.now)) }
    ensures err { OnErr result (StageFailed (P.state device.old) (P.state device.new) (parts_pairs stamp parts.now)) }
    ensures writable { AllByRecursion IsWritable (puts_of_parts parts.now) }
{
    store_parts(device, parts, stamp);
    flush_parts(device, parts);
    device.fence()
}

/// Stores the puts and the ends of all parts.
pub(crate) fn store_parts<P: Pmem>(device: &mut P, parts: &[Part], stamp: u64)
    requires placed { AllByRecursion (IsPlaced (directory_room (P.state device.old).lines) (P.state device.old).lines) (puts_of_parts parts.now) }
    requires fitting { AllByRecursion HasItsLines (puts_of_parts parts.now) }
    requires ends { AreEndsWithin (P.state device.old).lines parts.now }
    requires room { stamp + length parts.now < 2 ^ 64 }
    ensures stored { Runs (P.state device.old) (P.state device.new) (stores (parts_pairs stamp parts.now) (P.state device.old).words) }
    ensures writable { AllByRecursion IsWritable (puts_of_parts parts.now) }
{
    for (i, part) in parts.iter().enumerate() {
        store_part(device, part, stamp + i as u64);
    }
}

/// Stores the puts and the ends of one part.
fn store_part<P: Pmem>(device: &mut P, part: &Part, stamp: u64)
    requires placed { AllByRecursion (IsPlaced (directory_room (P.state device.old).lines) (P.state device.old).lines) (puts_of_part part.now) }
    requires fitting { AllByRecursion HasItsLines (puts_of_part part.now) }
    requires ends { AreWithin (P.state device.old).lines part.now.ended.items }
    ensures stored { Runs (P.state device.old) (P.state device.new) (stores (part_pairs stamp part.now) (P.state device.old).words) }
    ensures writable { AllByRecursion IsWritable (puts_of_part part.now) }
{
    store_puts(device, part.changes.as_slice(), stamp, part.position);
    store_ends(device, part.ended.as_slice(), stamp);
}

/// Stores the puts among these changes.
fn store_puts<P: Pmem>(device: &mut P, changes: &[PlacedChange], stamp: u64, position: u64)
    requires placed { AllByRecursion (IsPlaced (directory_room (P.state device.old).lines) (P.state device.old).lines) (puts_of_changes changes.now) }
    requires fitting { AllByRecursion HasItsLines (puts_of_changes changes.now) }
    ensures stored { Runs (P.state device.old) (P.state device.new) (stores (puts_pairs stamp position (puts_of_changes changes.now)) (P.state device.old).words) }
    ensures writable { AllByRecursion IsWritable (puts_of_changes changes.now) }
{
    for change in changes {
        store_change(device, change, stamp, position);
    }
}

/// Stores the put of a change, if it is one.
fn store_change<P: Pmem>(device: &mut P, change: &PlacedChange, stamp: u64, position: u64)
    requires placed { AllByRecursion (IsPlaced (directory_room (P.state device.old).lines) (P.state device.old).lines) (put_of change.now) }
    requires fitting { AllByRecursion HasItsLines (put_of change.now) }
    ensures stored { Runs (P.state device.old) (P.state device.new) (stores (puts_pairs stamp position (put_of change.now)) (P.state device.old).words) }
    ensures writable { AllByRecursion IsWritable (put_of change.now) }
{
    if let PlacedChange::Put(put) = change {
        write_entry(device, put, stamp, position);
    }
}

/// Stores the end stamp of these entries.
fn store_ends<P: Pmem>(device: &mut P, ended: &[EntryNo], stamp: u64)
    requires { AreWithin (P.state device.old).lines ended.now }
    ensures { Runs (P.state device.old) (P.state device.new) (stores (end_pairs stamp ended.now) (P.state device.old).words) }
{
    for entry in ended {
        device.store(entry_word(*entry, 1), stamp);
    }
}

/// Flushes all lines that `store_parts` stored to.
pub(crate) fn flush_parts<P: Pmem>(device: &mut P, parts: &[Part])
    requires placed { AllByRecursion (IsPlaced (directory_room (P.state device.old).lines) (P.state device.old).lines) (puts_of_parts parts.now) }
    requires ends { AreEndsWithin (P.state device.old).lines parts.now }
    ensures { Runs (P.state device.old) (P.state device.new) (flushes (parts_lines parts.now) (P.state device.old).words) }
{
    for part in parts {
        flush_part(device, part);
    }
}

/// Flushes the puts and the ends of one part.
fn flush_part<P: Pmem>(device: &mut P, part: &Part)
    requires placed { AllByRecursion (IsPlaced (directory_room (P.state device.old).lines) (P.state device.old).lines) (puts_of_part part.now) }
    requires ends { AreWithin (P.state device.old).lines part.now.ended.items }
    ensures { Runs (P.state device.old) (P.state device.new) (flushes (part_lines part.now) (P.state device.old).words) }
{
    flush_puts(device, part.changes.as_slice());
    flush_ends(device, part.ended.as_slice());
}

/// Flushes the puts among these changes.
fn flush_puts<P: Pmem>(device: &mut P, changes: &[PlacedChange])
    requires { AllByRecursion (IsPlaced (directory_room (P.state device.old).lines) (P.state device.old).lines) (puts_of_changes changes.now) }
    ensures { Runs (P.state device.old) (P.state device.new) (flushes (puts_lines (puts_of_changes changes.now)) (P.state device.old).words) }
{
    for change in changes {
        flush_change(device, change);
    }
}

/// Flushes the put of a change, if it is one.
fn flush_change<P: Pmem>(device: &mut P, change: &PlacedChange)
    requires { AllByRecursion (IsPlaced (directory_room (P.state device.old).lines) (P.state device.old).lines) (put_of change.now) }
    ensures { Runs (P.state device.old) (P.state device.new) (flushes (puts_lines (put_of change.now)) (P.state device.old).words) }
{
    if let PlacedChange::Put(put) = change {
        flush_entry(device, put);
    }
}

/// Flushes the lines of these entries.
pub(crate) fn flush_ends<P: Pmem>(device: &mut P, ended: &[EntryNo])
    requires { AreWithin (P.state device.old).lines ended.now }
    ensures { Runs (P.state device.old) (P.state device.new) (flushes (end_lines ended.now) (P.state device.old).words) }
{
    for entry in ended {
        device.flush(Layout::entry_line(entry.0));
    }
}

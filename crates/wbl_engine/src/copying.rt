//! Parts of a copy are staged on a newcomer's image, and then count by one record, or are dropped.
ghost use Rattle.std.specs.Prelude.{◌≡◌, ◌⊎◌, ℕ, ◌+◌, ◌^◌, ◌<◌, OnOk, OnErr, IfOk, IfSome, IfNone, true};
ghost use Rattle.std.specs.List.{AllByRecursion};
ghost use Rattle.pmem.specs.Device.{moment};
ghost use Rattle.pmem.specs.Crash.{image_of};
ghost use Rattle.pmem.specs.Runs.{LeavesOnly, Runs, Staged, StageFailed, stores, flushes};
ghost use Rattle.model.specs.Layout.{directory_room};
ghost use Rattle.model.specs.Image.{entries_of_lines};
ghost use Rattle.model.specs.Group.{HasItsLines, IsPlaced, with_puts};
ghost use Rattle.heap_layout.specs.Put.{put_pairs};
ghost use Rattle.wbl_record.specs.Current.{IsLawful};
ghost use Rattle.wbl_engine.specs.AtRest.{IsAtRest, contents_of};
ghost use Rattle.wbl_engine.specs.Contents.{Keeps, Same};
ghost use Rattle.wbl_engine.specs.Erasing.{stamped_below};
ghost use Rattle.wbl_engine.specs.Copying.{AreStageable, copy_gap, Drops, ExhaustsCopy, IsCopied, IsHalf, after_copy, copied_record, staged_of};
ghost use Rattle.wbl_engine.specs.Stage.{IsWritable, puts_lines, puts_pairs};

use crate::clearing::stamped_in;
use crate::erasing::erase_durably;
use crate::freeing::{Freed, freed_by};
use crate::successor::copy_gaps;
use heap_layout::{flush_entry, write_entry};
use kv_types::EntryNo;
use model::{COUNTER_LIMIT, Gap, Put, Record, Role, STAMP_WINDOW};
use pmem::{Fault, Pmem};
use std::alloc::{AllocError, Global};
use wbl_record::write_durably;

/// The record that ends a copy at this position, or `None` if one of its counters would reach 2^62.
pub fn copied_record(current: &Record, position: u64) -> Option<Record>
    requires lawful { IsLawful current.now }
    ensures next { IfSome result (λ next. next ≡ copied_record current.now position) }
    ensures lawful { IfSome result IsLawful }
    ensures exhausted { IfNone result (ExhaustsCopy current.now position) }
{
    let number = current.number + 1;
    let cp = current.cp + 1;
    let cd = cp + 1 + STAMP_WINDOW;
    if cd < COUNTER_LIMIT && position < COUNTER_LIMIT && number < COUNTER_LIMIT {
        Some(Record {
            layout: current.layout,
            number,
            position,
            cp,
            cd,
            epoch: current.epoch,
            role: Role::Standby,
            gaps: copy_gaps(&current.gaps),
            floor: current.floor,
        })
    } else {
        None
    }
}

/// Stages a part of a copy, and syncs. At any moment a crash leaves the newcomer without a copy. On `Err` a fence or the sync has failed.
pub fn stage_part<P: Pmem>(
    device: &mut P,
    puts: &[Put],
    current: &Record,
    position: u64,
) -> Result<(), Fault>
    requires half { IsHalf current.now (P.state device.old) }
    requires asked { AreStageable (contents_of current.now (P.state device.old)) (staged_of true current.now (P.state device.old)) puts.now }
    ensures half { OnOk result (IsHalf current.now (P.state device.new)) }
    ensures staged { OnOk result ((i : ℕ) → staged_of true current.now (P.state device.new) i
        ≡ with_puts position puts.now (staged_of true current.now (P.state device.old)) i) }
    ensures sound { OnOk result ((P.state device.new).failures ≡ (P.state device.old).failures) }
    ensures stays { Same (contents_of current.now (P.state device.old)) (contents_of current.now (P.state device.new)) }
    ensures fault { OnErr result ((P.state device.old).failures < (P.state device.new).failures) }
    ensures synced { OnOk result (P.floor device.new ≡ moment (P.state device.new)) }
    ensures asked_moment { (P.state device.new).kept ≡ (P.state device.old).kept }
    ensures moments { LeavesOnly (P.state device.old) (P.state device.new) (Keeps (contents_of current.now (P.state device.old))) }
{
    stage_durably(device, puts, current.cp + 1, position)
}

/// Stages puts as `stage_puts` does, and then syncs. On `Err` the fence or the sync has failed, and any of the words may be lost, each independently.
fn stage_durably<P: Pmem>(
    device: &mut P,
    puts: &[Put],
    stamp: u64,
    position: u64,
) -> Result<(), Fault>
    requires placed { AllByRecursion (IsPlaced (directory_room (P.state device.old).lines) (P.state device.old).lines) puts.now }
    requires fitting { AllByRecursion HasItsLines puts.now }
    ensures ok { OnOk result (Staged (P.state device.old) (P.state device.new) (puts_pairs stamp position puts.now) (puts_lines puts.now)) }
    ensures synced { OnOk result (P.floor device.new ≡ moment (P.state device.new)) }
    ensures err { OnErr result (StageFailed (P.state device.old) (P.state device.new) (puts_pairs stamp position puts.now)) }
    ensures writable { AllByRecursion IsWritable puts.now }
{
    stage_puts(device, puts, stamp, position)?;
    device.sync()
}

/// Stores puts under one stamp at one position, flushes their lines, and fences. On `Err` the fence has failed, and any of the words may be lost, each
/// independently.
fn stage_puts<P: Pmem>(device: &mut P, puts: &[Put], stamp: u64, position: u64) -> Result<(), Fault>
    requires placed { AllByRecursion (IsPlaced (directory_room (P.state device.old).lines) (P.state device.old).lines) puts.now }
    requires fitting { AllByRecursion HasItsLines puts.now }
    ensures ok { OnOk result (Staged (P.state device.old) (P.state device.new) (puts_pairs stamp position puts.now) (puts_lines puts.now)) }
    ensures err { OnErr result (StageFailed (P.state device.old) (P.state device.new) (puts_pairs stamp position puts.now)) }
    ensures writable { AllByRecursion IsWritable puts.now }
{
    store_puts(device, puts, stamp, position);
    flush_puts(device, puts);
    device.fence()
}

/// Stores puts under one stamp at one position.
fn store_puts<P: Pmem>(device: &mut P, puts: &[Put], stamp: u64, position: u64)
    requires placed { AllByRecursion (IsPlaced (directory_room (P.state device.old).lines) (P.state device.old).lines) puts.now }
    requires fitting { AllByRecursion HasItsLines puts.now }
    ensures stored { Runs (P.state device.old) (P.state device.new) (stores (puts_pairs stamp position puts.now) (P.state device.old).words) }
    ensures writable { AllByRecursion IsWritable puts.now }
{
    for put in puts {
        store_put(device, put, stamp, position);
    }
}

/// Stores a put.
fn store_put<P: Pmem>(device: &mut P, put: &Put, stamp: u64, position: u64)
    requires placed { IsPlaced (directory_room (P.state device.old).lines) (P.state device.old).lines put.now }
    requires fitting { HasItsLines put.now }
    ensures stored { Runs (P.state device.old) (P.state device.new) (stores (put_pairs stamp position put.now) (P.state device.old).words) }
    ensures writable { IsWritable put.now }
{
    write_entry(device, put, stamp, position);
}

/// Flushes all lines that `store_puts` stored to.
fn flush_puts<P: Pmem>(device: &mut P, puts: &[Put])
    requires { AllByRecursion (IsPlaced (directory_room (P.state device.old).lines) (P.state device.old).lines) puts.now }
    ensures { Runs (P.state device.old) (P.state device.new) (flushes (puts_lines puts.now) (P.state device.old).words) }
{
    for put in puts {
        flush_entry(device, put);
    }
}

/// Writes the record that ends a copy, and syncs. At any moment a crash leaves the newcomer without a copy, or the standby with all of it. On `Err` a fence or
/// the sync has failed.
pub fn end_copy<P: Pmem>(device: &mut P, current: &Record, next: &Record) -> Result<(), Fault>
    requires half { IsHalf current.now (P.state device.old) }
    requires asked { IsCopied (contents_of current.now (P.state device.old)) (staged_of true current.now (P.state device.old)) next.now.position }
    requires after { next.now ≡ copied_record current.now next.now.position }
    requires lawful { IsLawful next.now }
    ensures rest { OnOk result (IsAtRest next.now (P.state device.new)) }
    ensures moved { OnOk result (Same (after_copy (contents_of current.now (P.state device.old)) (staged_of true current.now (P.state device.old)) next.now.position)
        (contents_of next.now (P.state device.new))) }
    ensures sound { OnOk result ((P.state device.new).failures ≡ (P.state device.old).failures) }
    ensures stays { OnErr result (Same (contents_of current.now (P.state device.old)) (contents_of current.now (P.state device.new))) }
    ensures fault { OnErr result ((P.state device.old).failures < (P.state device.new).failures) }
    ensures synced { OnOk result (P.floor device.new ≡ moment (P.state device.new)) }
    ensures asked_moment { (P.state device.new).kept ≡ (P.state device.old).kept }
    ensures moments { LeavesOnly (P.state device.old) (P.state device.new) (λ image.
        Keeps (contents_of current.now (P.state device.old)) image
        ⊎ Keeps (after_copy (contents_of current.now (P.state device.old)) (staged_of true current.now (P.state device.old)) next.now.position) image) }
{
    write_durably(device, next)
}

/// The entries of what is staged, in rising order, and its extents. `AllocError` if an allocation was refused.
pub fn staged_in<P: Pmem>(alloc: Global, device: &P, current: &Record) -> Result<Freed, AllocError>
    requires { IsHalf current.now (P.state device.now) }
    ensures entries { IfOk result (λ freed. freed.entries.items
        ≡ stamped_below (copy_gap current.now) (image_of (P.state device.now).words) 0 (entries_of_lines current.now.layout (P.state device.now).lines)) }
    ensures drops { IfOk result (λ freed. Drops (staged_of true current.now (P.state device.now)) freed.entries.items freed.extents.items) }
{
    let stamp = current.cp + 1;
    let gap = Gap {
        first: stamp,
        last: stamp,
    };
    let stamped = stamped_in(alloc, device, current.layout, gap)?;
    freed_by(alloc, device, stamped.begins.as_slice())
}

/// Erases the begins of what is staged, and syncs. At any moment a crash leaves the newcomer without a copy. On `Err` the fence or the sync has failed.
pub fn erase_copy<P: Pmem>(
    device: &mut P,
    entries: &[EntryNo],
    current: &Record,
) -> Result<(), Fault>
    requires half { IsHalf current.now (P.state device.old) }
    requires all { entries.now
        ≡ stamped_below (copy_gap current.now) (image_of (P.state device.old).words) 0 (entries_of_lines current.now.layout (P.state device.old).lines) }
    ensures rest { OnOk result (IsAtRest current.now (P.state device.new)) }
    ensures sound { OnOk result ((P.state device.new).failures ≡ (P.state device.old).failures) }
    ensures stays { Same (contents_of current.now (P.state device.old)) (contents_of current.now (P.state device.new)) }
    ensures fault { OnErr result ((P.state device.old).failures < (P.state device.new).failures) }
    ensures synced { OnOk result (P.floor device.new ≡ moment (P.state device.new)) }
    ensures asked_moment { (P.state device.new).kept ≡ (P.state device.old).kept }
    ensures moments { LeavesOnly (P.state device.old) (P.state device.new) (Keeps (contents_of current.now (P.state device.old))) }
{
    erase_durably(device, entries, &[])
}

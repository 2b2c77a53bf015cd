//! A group is committed, and versions that had ended before it are freed, under the same fences.
ghost use Rattle.std.specs.Prelude.{◌≡◌, ◌+◌, ◌^◌, ◌<◌, ◌++◌, [], length, OnOk, OnErr};
ghost use Rattle.std.specs.List.{AllByRecursion};
ghost use Rattle.pmem.specs.Device.{moment};
ghost use Rattle.pmem.specs.Runs.{LeavesOnly, Staged, StageFailed};
ghost use Rattle.model.specs.Layout.{directory_room};
ghost use Rattle.model.specs.Group.{HasItsLines, IsGroup, IsPlaced, next_record, after_group};
ghost use Rattle.wbl_engine.specs.AtRest.{IsAtRest, contents_of};
ghost use Rattle.wbl_engine.specs.Committing.{AreCommittable, after_parts, at_floor, record_after, under_floor};
ghost use Rattle.wbl_engine.specs.Contents.{Same};
ghost use Rattle.wbl_engine.specs.Erasing.{erase_pairs, erase_lines};
ghost use Rattle.wbl_engine.specs.Freeing.{AreEnded, KeepsFreedOr, after_free};
ghost use Rattle.wbl_engine.specs.Stage.{AreEndsWithin, AreWithin, IsWritable, parts_lines, parts_pairs, puts_of_parts};
ghost use Rattle.wbl_record.specs.Current.{IsLawful};

use crate::erasing::store_zeros;
use crate::staging::{flush_ends, flush_parts, store_parts};
use kv_types::EntryNo;
use model::{Group, Part, Record};
use pmem::{Fault, Pmem};
use wbl_record::write_durably;

/// Stores a group and the record after it, erases the begins of entries whose versions had ended before it, and syncs. At any moment a crash leaves the
/// contents from before without some of these versions, or those after the group without all of them.
pub(crate) fn commit_and_erase<P: Pmem>(
    device: &mut P,
    group: &Group,
    entries: &[EntryNo],
    current: &Record,
    next: &Record,
) -> Result<(), Fault>
    requires rest { IsAtRest current.now (P.state device.old) }
    requires ended { AreEnded (contents_of current.now (P.state device.old)) entries.now }
    requires asked { IsGroup (contents_of current.now (P.state device.old)) group.now }
    requires freed { IsGroup (after_free entries.now (contents_of current.now (P.state device.old))) group.now }
    requires after { next.now ≡ next_record (at_floor next.now.floor current.now) group.now }
    requires lawful { IsLawful next.now }
    ensures rest { OnOk result (IsAtRest next.now (P.state device.new)) }
    ensures moved { OnOk result (Same (after_group (under_floor next.now.floor (after_free entries.now (contents_of current.now (P.state device.old)))) group.now)
        (contents_of next.now (P.state device.new))) }
    ensures sound { OnOk result ((P.state device.new).failures ≡ (P.state device.old).failures) }
    ensures stays { OnErr result (Same (after_free entries.now (contents_of current.now (P.state device.old))) (contents_of current.now (P.state device.new))) }
    ensures fault { OnErr result ((P.state device.old).failures < (P.state device.new).failures) }
    ensures synced { OnOk result (P.floor device.new ≡ moment (P.state device.new)) }
    ensures asked_moment { (P.state device.new).kept ≡ (P.state device.old).kept }
    ensures moments { LeavesOnly (P.state device.old) (P.state device.new)
        (KeepsFreedOr entries.now (contents_of current.now (P.state device.old))
        (after_group (under_floor next.now.floor (after_free entries.now (contents_of current.now (P.state device.old)))) group.now)) }
{
    commit_parts_and_erase(device, group.parts.as_slice(), entries, current, next)
}

/// Stores parts and the record after them, erases these begins, and syncs. At any moment a crash leaves the contents from before without some of the
/// versions of the entries, or those after the parts without all of them.
fn commit_parts_and_erase<P: Pmem>(
    device: &mut P,
    parts: &[Part],
    entries: &[EntryNo],
    current: &Record,
    next: &Record,
) -> Result<(), Fault>
    requires rest { IsAtRest current.now (P.state device.old) }
    requires ended { AreEnded (contents_of current.now (P.state device.old)) entries.now }
    requires asked { AreCommittable (contents_of current.now (P.state device.old)) parts.now next.now.position }
    requires freed { AreCommittable (after_free entries.now (contents_of current.now (P.state device.old))) parts.now next.now.position }
    requires after { next.now ≡ record_after current.now parts.now next.now.position next.now.epoch next.now.floor }
    requires lawful { IsLawful next.now }
    ensures rest { OnOk result (IsAtRest next.now (P.state device.new)) }
    ensures moved { OnOk result (Same (after_parts (after_free entries.now (contents_of current.now (P.state device.old))) parts.now next.now.position next.now.epoch next.now.floor)
        (contents_of next.now (P.state device.new))) }
    ensures sound { OnOk result ((P.state device.new).failures ≡ (P.state device.old).failures) }
    ensures stays { OnErr result (Same (after_free entries.now (contents_of current.now (P.state device.old))) (contents_of current.now (P.state device.new))) }
    ensures fault { OnErr result ((P.state device.old).failures < (P.state device.new).failures) }
    ensures synced { OnOk result (P.floor device.new ≡ moment (P.state device.new)) }
    ensures asked_moment { (P.state device.new).kept ≡ (P.state device.old).kept }
    ensures moments { LeavesOnly (P.state device.old) (P.state device.new)
        (KeepsFreedOr entries.now (contents_of current.now (P.state device.old))
        (after_parts (after_free entries.now (contents_of current.now (P.state device.old))) parts.now next.now.position next.now.epoch next.now.floor)) }
{
    stage_and_erase(device, parts, entries, current.cp + 1)?;
    write_durably(device, next)
}

/// Stores 0 over the begins of the entries, and the puts and the ends of all parts, flushes their lines, and fences. The first part takes `stamp`, and each
/// later part the next one.
///
/// None of the parts counts before the record does. On `Err` the fence has failed, and any of the words may be lost, each independently.
fn stage_and_erase<P: Pmem>(
    device: &mut P,
    parts: &[Part],
    entries: &[EntryNo],
    stamp: u64,
) -> Result<(), Fault>
    requires placed { AllByRecursion (IsPlaced (directory_room (P.state device.old).lines) (P.state device.old).lines) (puts_of_parts parts.now) }
    requires fitting { AllByRecursion HasItsLines (puts_of_parts parts.now) }
    requires ends { AreEndsWithin (P.state device.old).lines parts.now }
    requires begins { AreWithin (P.state device.old).lines entries.now }
    requires room { stamp + length parts.now < 2 ^ 64 }
    ensures ok { OnOk result (Staged (P.state device.old) (P.state device.new) (erase_pairs entries.now [] ++ parts_pairs stamp parts.now)
        (erase_lines entries.now [] ++ parts_lines parts.now)) }
    ensures err { OnErr result (StageFailed (P.state device.old) (P.state device.new) (erase_pairs entries.now [] ++ parts_pairs stamp parts.now)) }
    ensures writable { AllByRecursion IsWritable (puts_of_parts parts.now) }
{
    store_zeros(device, entries, 0);
    store_parts(device, parts, stamp);
    flush_ends(device, entries);
    flush_parts(device, parts);
    device.fence()
}

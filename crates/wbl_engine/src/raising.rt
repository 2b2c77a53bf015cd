//! A record that raises the floor, before what has ended up to it is freed.
ghost use Rattle.std.specs.Prelude.{◌≡◌, ◌⊎◌, ◌<◌, ◌≤◌, IfSome, IfNone, OnOk, OnErr};
ghost use Rattle.pmem.specs.Device.{moment};
ghost use Rattle.pmem.specs.Runs.{LeavesOnly};
ghost use Rattle.model.specs.declared.record.Role.TheVariants.{Newcomer};
ghost use Rattle.model.specs.Floor.{raised_record};
ghost use Rattle.wbl_record.specs.Current.{IsLawful};
ghost use Rattle.wbl_engine.specs.AtRest.{IsAtRest, contents_of};
ghost use Rattle.wbl_engine.specs.Contents.{Keeps, Same};
ghost use Rattle.wbl_engine.specs.Freeing.{AreEnded, KeepsFreed, after_free};
ghost use Rattle.wbl_engine.specs.Raising.{ExhaustsRaising, IsRaised, under};

use crate::erasing::erase_durably;
use crate::successor::{copy_gaps, is_newcomer};
use kv_types::EntryNo;
use model::{COUNTER_LIMIT, Record};
use pmem::{Fault, Pmem};
use wbl_record::write_next;

/// The current record, if its floor is this or higher; otherwise the next one, with this floor. `None` if its number would reach 2^62, or the current
/// one is a newcomer's.
pub fn raised_record(current: &Record, floor: u64) -> Option<Record>
    requires lawful { IsLawful current.now }
    ensures next { IfSome result (λ next. next ≡ raised_record floor current.now) }
    ensures raised { IfSome result (IsRaised current.now) }
    ensures lawful { IfSome result IsLawful }
    ensures newcomer { IfSome result (λ next. current.now.role ≡ Newcomer → floor ≤ current.now.floor) }
    ensures exhausted { IfNone result (ExhaustsRaising floor current.now) }
{
    let number = raised_number(current, floor);
    if number >= COUNTER_LIMIT || (current.floor < floor && is_newcomer(current)) {
        return None;
    }
    Some(Record {
        layout: current.layout,
        number,
        position: current.position,
        cp: current.cp,
        cd: current.cd,
        epoch: current.epoch,
        role: current.role,
        gaps: copy_gaps(&current.gaps),
        floor: current.floor.max(floor),
    })
}

/// The number of that record.
fn raised_number(current: &Record, floor: u64) -> u64
    requires { IsLawful current.now }
    ensures { result ≡ (raised_record floor current.now).number }
{
    if current.floor < floor {
        current.number + 1
    } else {
        current.number
    }
}

/// Writes the record with the floor, unless it is the current one, erases the begins of the entries behind it, and syncs. At any moment a crash leaves the
/// contents from before, or those under that record without some of the versions of the entries. On `Err` a fence or the sync has failed.
pub(crate) fn free_under<P: Pmem>(
    device: &mut P,
    entries: &[EntryNo],
    current: &Record,
    next: &Record,
) -> Result<(), Fault>
    requires rest { IsAtRest current.now (P.state device.old) }
    requires ended { AreEnded (contents_of current.now (P.state device.old)) entries.now }
    requires after { IsRaised current.now next.now }
    requires lawful { IsLawful next.now }
    ensures rest { OnOk result (IsAtRest next.now (P.state device.new)) }
    ensures moved { OnOk result (Same (after_free entries.now (under next.now (contents_of current.now (P.state device.old))))
        (contents_of next.now (P.state device.new))) }
    ensures sound { OnOk result ((P.state device.new).failures ≡ (P.state device.old).failures) }
    ensures stays { OnErr result (((current.now.floor < next.now.floor)
        × Same (contents_of current.now (P.state device.old)) (contents_of current.now (P.state device.new)))
        ⊎ Same (after_free entries.now (contents_of current.now (P.state device.old))) (contents_of current.now (P.state device.new))) }
    ensures fault { OnErr result ((P.state device.old).failures < (P.state device.new).failures) }
    ensures synced { OnOk result (P.floor device.new ≡ moment (P.state device.new)) }
    ensures asked_moment { (P.state device.new).kept ≡ (P.state device.old).kept }
    ensures moments { LeavesOnly (P.state device.old) (P.state device.new)
        (KeepsFreed entries.now (contents_of current.now (P.state device.old)) (under next.now (contents_of current.now (P.state device.old)))) }
{
    write_raised(device, current, next)?;
    erase_durably(device, entries, &[])
}

/// Writes the record with the floor, unless it is the current one. At any moment a crash leaves the same versions, under the current record or this one.
/// On `Err` a fence has failed.
fn write_raised<P: Pmem>(device: &mut P, current: &Record, next: &Record) -> Result<(), Fault>
    requires rest { IsAtRest current.now (P.state device.old) }
    requires after { IsRaised current.now next.now }
    requires lawful { IsLawful next.now }
    ensures rest { OnOk result (IsAtRest next.now (P.state device.new)) }
    ensures moved { OnOk result (Same (under next.now (contents_of current.now (P.state device.old))) (contents_of next.now (P.state device.new))) }
    ensures sound { OnOk result ((P.state device.new).failures ≡ (P.state device.old).failures) }
    ensures rises { OnErr result (current.now.floor < next.now.floor) }
    ensures stays { OnErr result (Same (contents_of current.now (P.state device.old)) (contents_of current.now (P.state device.new))) }
    ensures fault { OnErr result ((P.state device.old).failures < (P.state device.new).failures) }
    ensures asked_moment { (P.state device.new).kept ≡ (P.state device.old).kept }
    ensures moments { LeavesOnly (P.state device.old) (P.state device.new) (λ image.
        Keeps (contents_of current.now (P.state device.old)) image
        ⊎ Keeps (under next.now (contents_of current.now (P.state device.old))) image) }
{
    if next.number == current.number {
        return Ok(());
    }
    write_next(device, next)
}

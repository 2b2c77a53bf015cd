//! A gap leaves the record once no stamp in it is left on the device.
ghost use Rattle.std.specs.Prelude.{◌≡◌, ◌⊎◌, ℕ, true, ◌+◌, ◌<◌, ◌≤◌, ◌++◌, ◌∷◌, [], ◌↔◌, if◌then◌else◌, length, IsTrue, IfOk, OnOk, OnErr};
ghost use Rattle.pmem.specs.Device.{moment};
ghost use Rattle.pmem.specs.Crash.{image_of};
ghost use Rattle.pmem.specs.Runs.{LeavesOnly};
ghost use Rattle.model.specs.declared.image.TheConstants.{COUNTER_LIMIT, MIN_LINES};
ghost use Rattle.model.specs.Image.{entries_of_lines};
ghost use Rattle.wbl_record.specs.Current.{IsLawful};
ghost use Rattle.wbl_engine.specs.AtRest.{IsAtRest, IsQuiet, contents_of};
ghost use Rattle.wbl_engine.specs.Contents.{Keeps};
ghost use Rattle.wbl_engine.specs.Copying.{IsHalf, staged_of};
ghost use Rattle.wbl_engine.specs.Erasing.{oldest_gap, stamped_below};
ghost use Rattle.wbl_engine.specs.Freeing.{Clears, KeepsVersions, record_after_clearing, cleared_contents};

use crate::erasing::erase_stamps;
use crate::successor::copy_gaps;
use heap_layout::read_stamps;
use kv_types::EntryNo;
use model::{COUNTER_LIMIT, Gap, Layout, Record};
use pmem::{Fault, Pmem};
use std::alloc::{AllocError, Global};
use wbl_record::write_durably;

/// The entries of the directory that have a stamp in a gap.
#[derive(Debug, Drop)]
pub struct Stamped {
    /// Those whose begin lies in it, in rising order.
    pub begins: Vec<EntryNo>,
    /// Those whose end lies in it, in rising order.
    pub ends: Vec<EntryNo>,
}

/// Lists the entries of an image of this layout that have a stamp in a gap. `AllocError` if an allocation was refused.
pub fn stamped_in<P: Pmem>(
    alloc: Global,
    device: &P,
    layout: Layout,
    gap: Gap,
) -> Result<Stamped, AllocError>
    requires { MIN_LINES ≤ (P.state device.now).lines }
    ensures begins { IfOk result (λ stamped.
        stamped.begins.items ≡ stamped_below gap (image_of (P.state device.now).words) 0 (entries_of_lines layout (P.state device.now).lines)) }
    ensures ends { IfOk result (λ stamped.
        stamped.ends.items ≡ stamped_below gap (image_of (P.state device.now).words) 1 (entries_of_lines layout (P.state device.now).lines)) }
{
    let mut begins = Vec::new(alloc);
    let mut ends = Vec::new(alloc);
    for i in 0..layout.entries_of_lines(device.lines()) {
        let stamps = read_stamps(device, EntryNo(i));
        push_if(&mut begins, EntryNo(i), gap.holds(stamps.begin))?;
        push_if(&mut ends, EntryNo(i), gap.holds(stamps.end))?;
    }
    Ok(Stamped { begins, ends })
}

/// Adds an entry to a list, if it is to be there.
pub(crate) fn push_if(
    list: &mut Vec<EntryNo>,
    entry: EntryNo,
    listed: bool,
) -> Result<(), AllocError>
    ensures { OnOk result (list.new.items ≡ list.old.items ++ (if listed then entry ∷ [] else [])) }
{
    if listed {
        list.push(entry)?;
    }
    Ok(())
}

/// Whether a record has no gap.
pub fn has_no_gap(current: &Record) -> bool
    ensures { IsTrue result ↔ (length current.now.gaps.items ≡ 0) }
{
    current.gaps.is_empty()
}

/// Whether no record can follow: its number would reach 2^62.
pub fn is_last(current: &Record) -> bool
    ensures { IsTrue result ↔ (COUNTER_LIMIT ≤ current.now.number + 1) }
{
    current.number >= COUNTER_LIMIT - 1
}

/// The oldest gap of a record.
pub fn oldest_gap(current: &Record) -> Gap
    requires { 0 < length current.now.gaps.items }
    ensures { result ≡ oldest_gap current.now }
{
    current.gaps[0]
}

/// Erases the stamps in the oldest gap of the current record, and then writes the next record, which lacks that gap and is returned, and syncs.
///
/// At any moment a crash leaves the same versions, under the current record or the next one. On `Err` a fence or the sync has failed.
pub fn clear_oldest<P: Pmem>(
    device: &mut P,
    current: &Record,
    stamped: &Stamped,
) -> Result<Record, Fault>
    requires quiet { IsQuiet current.now (P.state device.old) }
    requires some { 0 < length current.now.gaps.items }
    requires room { current.now.number + 1 < COUNTER_LIMIT }
    requires begins { stamped.now.begins.items
        ≡ stamped_below (oldest_gap current.now) (image_of (P.state device.old).words) 0 (entries_of_lines current.now.layout (P.state device.old).lines) }
    requires ends { stamped.now.ends.items
        ≡ stamped_below (oldest_gap current.now) (image_of (P.state device.old).words) 1 (entries_of_lines current.now.layout (P.state device.old).lines) }
    ensures rest { IsAtRest current.now (P.state device.old) → IfOk result (λ next. IsAtRest next (P.state device.new)) }
    // what is staged of a copy stays
    ensures half { IsHalf current.now (P.state device.old) → IfOk result (λ next. IsHalf next (P.state device.new)) }
    ensures staged { IsHalf current.now (P.state device.old) → IfOk result (λ next. (i : ℕ)
        → staged_of true next (P.state device.new) i ≡ staged_of true current.now (P.state device.old) i) }
    ensures clears { IfOk result (λ next.
        Clears (contents_of current.now (P.state device.old)) stamped.now.begins.items (contents_of next (P.state device.new))) }
    ensures sound { OnOk result ((P.state device.new).failures ≡ (P.state device.old).failures) }
    ensures fault { OnErr result ((P.state device.old).failures < (P.state device.new).failures) }
    ensures stays { OnErr result
        (KeepsVersions (contents_of current.now (P.state device.old)) (contents_of current.now (P.state device.new))) }
    ensures synced { OnOk result (P.floor device.new ≡ moment (P.state device.new)) }
    ensures asked_moment { (P.state device.new).kept ≡ (P.state device.old).kept }
    ensures moments { LeavesOnly (P.state device.old) (P.state device.new) (λ image.
        Keeps (contents_of current.now (P.state device.old)) image
        ⊎ Keeps (cleared_contents (contents_of current.now (P.state device.old))) image) }
{
    erase_stamps(device, stamped.begins.as_slice(), stamped.ends.as_slice())?;
    let next = without_oldest_gap(current);
    write_durably(device, &next)?;
    Ok(next)
}

/// The record after its oldest gap is cleared.
pub(crate) fn without_oldest_gap(current: &Record) -> Record
    requires lawful { IsLawful current.now }
    requires some { 0 < length current.now.gaps.items }
    requires room { current.now.number + 1 < COUNTER_LIMIT }
    ensures next { result ≡ record_after_clearing current.now }
    ensures lawful { IsLawful (record_after_clearing current.now) }
{
    let mut gaps = copy_gaps(&current.gaps);
    gaps.remove(0);
    Record {
        layout: current.layout,
        number: current.number + 1,
        position: current.position,
        cp: current.cp,
        cd: current.cd,
        epoch: current.epoch,
        role: current.role,
        gaps,
        floor: current.floor,
    }
}

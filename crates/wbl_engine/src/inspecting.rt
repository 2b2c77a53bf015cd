//! An image is read by all rules of its format.
ghost use Rattle.std.specs.Prelude.{◌≡◌, ◌≤◌, Some, Err, IfOk, IfErr, OnOk};
ghost use Rattle.model.specs.declared.record.Record.{Record as CommitRecord};
ghost use Rattle.pmem.specs.Crash.{image_of};
ghost use Rattle.kv_types.specs.declared.refusal.Refusal.{Refusal as Cause};
ghost use Rattle.model.specs.declared.image.TheConstants.{MIN_LINES, MAX_LINES};
ghost use Rattle.model.specs.Image.{entries_of_lines};
ghost use Rattle.heap_layout.specs.Superblock.{super_refusal};
ghost use Rattle.heap_layout.specs.Versions.{counted_below, gapped_below};
ghost use Rattle.wbl_engine.specs.Inspecting.{live_below};
ghost use Rattle.wbl_engine.specs.Lawful.{IsUndamaged};
ghost use Rattle.wbl_engine.specs.Reopening.{RefusesReading};

use heap_layout::{Versions, read_super, read_versions};
use kv_types::Refusal;
use model::{Layout, MIN_LINES, Record};
use pmem::Pmem;
use std::alloc::Global;
use wbl_record::read_current;

/// Reads an undamaged image of this layout, and returns its record and how many of its entries are live. Nothing is changed. Errors as at `read_undamaged`.
pub fn inspect<P: Pmem>(alloc: Global, device: &P, layout: Layout) -> Result<(Record, u64), Refusal>
    ensures undamaged { IfOk result (λ read. IsUndamaged (P.state device.now).lines read.0 (image_of (P.state device.now).words)) }
    ensures live { IfOk result (λ read. read.1
        ≡ live_below read.0 (image_of (P.state device.now).words) (entries_of_lines read.0.layout (P.state device.now).lines)) }
    ensures refused { IfErr result (λ refusal. RefusesReading layout (P.state device.now).lines (image_of (P.state device.now).words) refusal) }
    ensures superblock { (refusal : Cause) → super_refusal layout (P.state device.now).lines (image_of (P.state device.now).words) ≡ Some refusal
        → result ≡ Err refusal }
{
    let (current, versions) = read_undamaged(alloc, device, layout)?;
    let live = versions.count_live();
    Ok((current, live))
}

/// Reads an undamaged image of this layout: its record and all its versions.
///
/// # Errors
///
/// What the superblock earns: `WrongSize`, `BadMagic`, `BadVersion` or `Damaged`; then `Damaged` where the image breaks any other rule;
/// `Memory` if an allocation was refused.
pub fn read_undamaged<P: Pmem>(
    alloc: Global,
    device: &P,
    layout: Layout,
) -> Result<(Record, Versions), Refusal>
    ensures undamaged { IfOk result (λ read. IsUndamaged (P.state device.now).lines read.0 (image_of (P.state device.now).words)) }
    ensures layout { IfOk result (λ read. read.0.layout ≡ layout) }
    ensures many { OnOk result (MIN_LINES ≤ (P.state device.now).lines) }
    ensures few { OnOk result ((P.state device.now).lines ≤ MAX_LINES) }
    ensures counted { IfOk result (λ read. read.1.counted.items
        ≡ counted_below read.0 (image_of (P.state device.now).words) (entries_of_lines read.0.layout (P.state device.now).lines)) }
    ensures gapped { IfOk result (λ read. read.1.gapped.items
        ≡ gapped_below read.0 (image_of (P.state device.now).words) (entries_of_lines read.0.layout (P.state device.now).lines)) }
    ensures refused { IfErr result (λ refusal. RefusesReading layout (P.state device.now).lines (image_of (P.state device.now).words) refusal) }
    ensures superblock { (refusal : Cause) → super_refusal layout (P.state device.now).lines (image_of (P.state device.now).words) ≡ Some refusal
        → result ≡ Err refusal }
{
    read_super(device, layout)?;
    let current = read_current(device)?;
    match read_versions(alloc, device, &current) {
        Ok(versions) => Ok((current, versions)),
        Err(refusal) => Err(refusal),
    }
}

/// The record of the image, as loads return it; none where the superblock is not that of an image of this device, or where the image has no
/// record that obeys the rules.
pub fn read_record<P: Pmem>(device: &P) -> Option<Record>
    ensures { (r : CommitRecord) → MIN_LINES ≤ (P.state device.now).lines → (P.state device.now).lines ≤ MAX_LINES
        → IsUndamaged (P.state device.now).lines r (image_of (P.state device.now).words) → result ≡ Some r }
{
    if device.lines() < MIN_LINES {
        return None;
    }
    match read_current(device) {
        Ok(current) => match read_super(device, current.layout) {
            Ok(_) => Some(current),
            Err(_) => None,
        },
        Err(_) => None,
    }
}

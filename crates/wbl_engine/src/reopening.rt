//! Reopening: a record in which no stamp counts that a crash may have cut off.
ghost use Rattle.std.specs.Prelude.{◌≡◌, ◌⊎◌, ◌↔◌, ℕ, ◌+◌, ◌<◌, ◌≤◌, IsTrue, Some, Err, length, OnOk, OnErr, IfOk, IfErr, IsErrOf};
ghost use Rattle.kv_types.specs.declared.refusal.Refusal.{Refusal as Cause};
ghost use Rattle.pmem.specs.Device.{Only, moment};
ghost use Rattle.pmem.specs.Crash.{image_of};
ghost use Rattle.pmem.specs.Runs.{LeavesOnly};
ghost use Rattle.model.specs.declared.image.TheConstants.{COUNTER_LIMIT, MAX_LINES, MIN_LINES, STAMP_WINDOW};
ghost use Rattle.model.specs.declared.record.Record.{Record as CommitRecord};
ghost use Rattle.model.specs.Layout.{max_gaps};
ghost use Rattle.model.specs.Image.{entries_of_lines, is_in_gap};
ghost use Rattle.heap_layout.specs.Superblock.{super_refusal};
ghost use Rattle.heap_layout.specs.Versions.{counted_below, gapped_below};
ghost use Rattle.wbl_record.specs.Current.{IsLawful};
ghost use Rattle.wbl_engine.specs.AtRest.{IsAtRest, contents_of};
ghost use Rattle.wbl_engine.specs.Contents.{IsDurable};
ghost use Rattle.wbl_engine.specs.Erasing.{oldest_gap};
ghost use Rattle.wbl_engine.specs.Freeing.{record_after_clearing};
ghost use Rattle.wbl_engine.specs.Lawful.{IsUndamaged};
ghost use Rattle.wbl_engine.specs.Reopening.{AreCleared, ExhaustsReopening, IsBesideRecords, IsReadable, IsShown, RefusesReopening, Reopens, StaysReadable, is_cleared, is_full, is_left, layout_in as the_layout_in, left_below, reopened, with_open_gap, with_room};

use crate::clearing::{oldest_gap, push_if, stamped_in, without_oldest_gap};
use crate::erasing::erase_stamps;
use crate::inspecting::read_undamaged;
use heap_layout::{Versions, read_stamps};
use kv_types::{EntryNo, Refusal};
use model::{COUNTER_LIMIT, Gap, Layout, Record, Role, STAMP_WINDOW};
use pmem::{Fault, Pmem};
use std::alloc::{AllocError, Global};
use wbl_record::{write_durably, write_next};

/// The layout of the image, as its version tells. One of a version that there is not counts as of version 1, by which it is refused.
pub fn layout_in<P: Pmem>(device: &P) -> Layout
    requires { MIN_LINES ≤ (P.state device.now).lines }
    ensures { result ≡ the_layout_in (image_of (P.state device.now).words) }
{
    if device.load(1) == Layout::Version2.version() {
        Layout::Version2
    } else if device.load(1) == Layout::Halfway.version() {
        Layout::Halfway
    } else {
        Layout::Version1
    }
}

/// Reopens an image of this layout in its role: reads it, and writes the record in which no stamp counts that was perhaps given out after the current one.
///
/// # Errors
///
/// `WrongSize`, `BadMagic`, `BadVersion` or `Damaged` as at `read_undamaged`; `WrongRole` where the image is to be served in the other role;
/// `Exhausted` where a counter would reach 2^62; `Memory` if an allocation was refused: nothing is changed. `Fault` if a fence failed.
pub fn reopen_device<P: Pmem>(
    alloc: Global,
    device: &mut P,
    layout: Layout,
    role: Role,
) -> Result<(Record, Versions), Refusal>
    requires settled { (word : ℕ) → Only ((P.state device.old).words word) (image_of (P.state device.old).words word) }
    ensures reopens { IfOk result (λ o. Reopens (P.state device.old).lines (image_of (P.state device.old).words) role
        (contents_of o.0 (P.state device.new)) o.1.counted.items o.1.gapped.items) }
    ensures layout { IfOk result (λ o. o.0.layout ≡ layout) }
    ensures shown { IfOk result (λ o. IsShown (contents_of o.0 (P.state device.new)) o.1.counted.items o.1.gapped.items
        (image_of (P.state device.new).words)) }
    ensures rest { IfOk result (λ o. IsAtRest o.0 (P.state device.new)) }
    ensures durable { IfOk result (λ o. IsDurable (P.state device.new) (contents_of o.0 (P.state device.new))) }
    ensures sound { OnOk result ((P.state device.new).failures ≡ (P.state device.old).failures) }
    ensures refused { IfErr result (λ refusal. (refusal ≡ Refusal.Fault)
        ⊎ (RefusesReopening layout (P.state device.old).lines (image_of (P.state device.old).words) role refusal × (device.new ≡ device.old))) }
    ensures fault { IsErrOf result Refusal.Fault → (P.state device.old).failures < (P.state device.new).failures }
    ensures superblock { (refusal : Cause) → super_refusal layout (P.state device.old).lines (image_of (P.state device.old).words) ≡ Some refusal
        → result ≡ Err refusal }
    ensures lines { (P.state device.new).lines ≡ (P.state device.old).lines }
    ensures synced { OnOk result (P.floor device.new ≡ moment (P.state device.new)) }
    ensures asked_moment { (P.state device.new).kept ≡ (P.state device.old).kept }
    ensures moments { (r : CommitRecord) → IsUndamaged (P.state device.old).lines r (image_of (P.state device.old).words)
        → LeavesOnly (P.state device.old) (P.state device.new) (StaysReadable (P.state device.old).lines r (image_of (P.state device.old).words)) }
{
    let (current, versions) = read_to_reopen(alloc, device, layout, role)?;
    let next = write_reopened(alloc, device, current)?;
    Ok((next, versions))
}

/// Reads an image that is to be reopened in this role, with the entries that were begun and that the reopening does not free. Errors as at
/// `reopen_device`, but for `Fault`.
fn read_to_reopen<P: Pmem>(
    alloc: Global,
    device: &P,
    layout: Layout,
    role: Role,
) -> Result<(Record, Versions), Refusal>
    ensures undamaged { IfOk result (λ read. IsUndamaged (P.state device.now).lines read.0 (image_of (P.state device.now).words)) }
    ensures layout { IfOk result (λ read. read.0.layout ≡ layout) }
    ensures role { IfOk result (λ read. read.0.role ≡ role) }
    ensures limits { IfOk result (λ read. ¬ ExhaustsReopening read.0) }
    ensures many { OnOk result (MIN_LINES ≤ (P.state device.now).lines) }
    ensures few { OnOk result ((P.state device.now).lines ≤ MAX_LINES) }
    ensures counted { IfOk result (λ read. read.1.counted.items
        ≡ counted_below read.0 (image_of (P.state device.now).words) (entries_of_lines read.0.layout (P.state device.now).lines)) }
    ensures gapped { IfOk result (λ read. read.1.gapped.items
        ≡ left_below read.0 (image_of (P.state device.now).words) (entries_of_lines read.0.layout (P.state device.now).lines)) }
    ensures refused { IfErr result (λ refusal. RefusesReopening layout (P.state device.now).lines (image_of (P.state device.now).words) role refusal) }
    ensures superblock { (refusal : Cause) → super_refusal layout (P.state device.now).lines (image_of (P.state device.now).words) ≡ Some refusal
        → result ≡ Err refusal }
{
    let (current, versions) = read_undamaged(alloc, device, layout)?;
    if !has_role(&current, role) {
        return Err(Refusal::WrongRole);
    }
    if exhausts(&current) {
        return Err(Refusal::Exhausted);
    }
    let Versions { counted, gapped } = versions;
    let gapped = left_by_clearing(alloc, device, &current, gapped)?;
    Ok((current, Versions { counted, gapped }))
}

/// Whether the record is of this role.
fn has_role(current: &Record, role: Role) -> bool
    ensures { IsTrue result ↔ (current.now.role ≡ role) }
{
    current.role == role
}

/// Of the entries that were begun and do not count, those that the reopening does not free.
fn left_by_clearing<P: Pmem>(
    alloc: Global,
    device: &P,
    current: &Record,
    gapped: Vec<EntryNo>,
) -> Result<Vec<EntryNo>, AllocError>
    requires image { MIN_LINES ≤ (P.state device.now).lines }
    requires gapped { gapped.items
        ≡ gapped_below current.now (image_of (P.state device.now).words) (entries_of_lines current.now.layout (P.state device.now).lines) }
    ensures { IfOk result (λ left.
        left.items ≡ left_below current.now (image_of (P.state device.now).words) (entries_of_lines current.now.layout (P.state device.now).lines)) }
{
    if !is_full(current) {
        return Ok(gapped);
    }
    list_left(alloc, device, current)
}

/// Lists the entries whose begin neither counts nor is in the gap that is cleared.
fn list_left<P: Pmem>(
    alloc: Global,
    device: &P,
    current: &Record,
) -> Result<Vec<EntryNo>, AllocError>
    requires { MIN_LINES ≤ (P.state device.now).lines }
    ensures { IfOk result (λ left.
        left.items ≡ left_below current.now (image_of (P.state device.now).words) (entries_of_lines current.now.layout (P.state device.now).lines)) }
{
    let mut left = Vec::new(alloc);
    for i in 0..current.layout.entries_of_lines(device.lines()) {
        let begin = read_stamps(device, EntryNo(i)).begin;
        push_if(&mut left, EntryNo(i), is_left(current, begin))?;
    }
    Ok(left)
}

/// Whether a begin is a stamp that neither counts nor is cleared.
fn is_left(current: &Record, begin: u64) -> bool
    ensures { result ≡ is_left current.now begin }
{
    begin != 0 && (!current.counts(begin) && !is_cleared(current, begin))
}

/// Whether the record holds as many gaps as it can.
fn is_full(current: &Record) -> bool
    ensures { result ≡ is_full current.now }
{
    current.gaps.len() as u64 == current.layout.max_gaps()
}

/// Whether a stamp is in the gap that the reopening clears.
fn is_cleared(current: &Record, stamp: u64) -> bool
    ensures { result ≡ is_cleared current.now stamp }
{
    is_full(current) && oldest_gap(current).holds(stamp)
}

/// Writes the reopened record: with room for one more gap, and then with the gap of all stamps that were perhaps given out. Errors as at
/// `make_room`.
fn write_reopened<P: Pmem>(
    alloc: Global,
    device: &mut P,
    current: Record,
) -> Result<Record, Refusal>
    requires readable { IsReadable current (P.state device.old) }
    requires limits { ¬ ExhaustsReopening current }
    ensures next { IfOk result (λ next. next ≡ reopened current) }
    ensures readable { OnOk result (IsReadable (reopened current) (P.state device.new)) }
    ensures cleared { OnOk result (AreCleared current.layout (P.state device.old).lines (is_cleared current)
        (image_of (P.state device.old).words) (image_of (P.state device.new).words)) }
    ensures lines { (P.state device.new).lines ≡ (P.state device.old).lines }
    ensures sound { OnOk result ((P.state device.new).failures ≡ (P.state device.old).failures) }
    ensures causes { IfErr result (λ refusal. (refusal ≡ Refusal.Fault) ⊎ (refusal ≡ Refusal.Memory)) }
    ensures memory { IsErrOf result Refusal.Memory → device.new ≡ device.old }
    ensures fault { IsErrOf result Refusal.Fault → (P.state device.old).failures < (P.state device.new).failures }
    ensures synced { OnOk result (P.floor device.new ≡ moment (P.state device.new)) }
    ensures asked_moment { (P.state device.new).kept ≡ (P.state device.old).kept }
    ensures moments { LeavesOnly (P.state device.old) (P.state device.new)
        (StaysReadable (P.state device.old).lines current (image_of (P.state device.old).words)) }
{
    let roomy = make_room(alloc, device, current)?;
    match add_open_gap(device, roomy) {
        Ok(next) => Ok(next),
        Err(Fault) => Err(Refusal::Fault),
    }
}

/// Makes room for one more gap: where the record holds all that it can, its oldest gap is cleared. Returns the record with room.
///
/// # Errors
///
/// `Memory`, with nothing changed; `Fault` if a fence failed.
fn make_room<P: Pmem>(alloc: Global, device: &mut P, current: Record) -> Result<Record, Refusal>
    requires readable { IsReadable current (P.state device.old) }
    requires number { current.number + 1 < COUNTER_LIMIT }
    ensures next { IfOk result (λ next. next ≡ with_room current) }
    ensures readable { OnOk result (IsReadable (with_room current) (P.state device.new)) }
    ensures cleared { OnOk result (AreCleared current.layout (P.state device.old).lines (is_cleared current)
        (image_of (P.state device.old).words) (image_of (P.state device.new).words)) }
    ensures lines { (P.state device.new).lines ≡ (P.state device.old).lines }
    ensures sound { OnOk result ((P.state device.new).failures ≡ (P.state device.old).failures) }
    ensures causes { IfErr result (λ refusal. (refusal ≡ Refusal.Fault) ⊎ (refusal ≡ Refusal.Memory)) }
    ensures memory { IsErrOf result Refusal.Memory → device.new ≡ device.old }
    ensures fault { IsErrOf result Refusal.Fault → (P.state device.old).failures < (P.state device.new).failures }
    ensures asked_moment { (P.state device.new).kept ≡ (P.state device.old).kept }
    ensures moments { LeavesOnly (P.state device.old) (P.state device.new)
        (StaysReadable (P.state device.old).lines current (image_of (P.state device.old).words)) }
{
    if !is_full(&current) {
        return Ok(current);
    }
    clear_oldest(alloc, device, current)
}

/// Erases the stamps of the record's oldest gap, and writes the record without it. Errors as at `make_room`.
fn clear_oldest<P: Pmem>(alloc: Global, device: &mut P, current: Record) -> Result<Record, Refusal>
    requires readable { IsReadable current (P.state device.old) }
    requires some { 0 < length current.gaps.items }
    requires number { current.number + 1 < COUNTER_LIMIT }
    ensures next { IfOk result (λ next. next ≡ record_after_clearing current) }
    ensures readable { OnOk result (IsReadable (record_after_clearing current) (P.state device.new)) }
    ensures cleared { OnOk result (AreCleared current.layout (P.state device.old).lines (λ stamp. is_in_gap stamp (oldest_gap current))
        (image_of (P.state device.old).words) (image_of (P.state device.new).words)) }
    ensures lines { (P.state device.new).lines ≡ (P.state device.old).lines }
    ensures sound { OnOk result ((P.state device.new).failures ≡ (P.state device.old).failures) }
    ensures causes { IfErr result (λ refusal. (refusal ≡ Refusal.Fault) ⊎ (refusal ≡ Refusal.Memory)) }
    ensures memory { IsErrOf result Refusal.Memory → device.new ≡ device.old }
    ensures fault { IsErrOf result Refusal.Fault → (P.state device.old).failures < (P.state device.new).failures }
    ensures asked_moment { (P.state device.new).kept ≡ (P.state device.old).kept }
    ensures moments { LeavesOnly (P.state device.old) (P.state device.new)
        (StaysReadable (P.state device.old).lines current (image_of (P.state device.old).words)) }
{
    let next = without_oldest_gap(&current);
    erase_gap(alloc, device, &current)?;
    match write_next(device, &next) {
        Ok(()) => Ok(next),
        Err(Fault) => Err(Refusal::Fault),
    }
}

/// Erases each stamp of the directory that is in the record's oldest gap. Errors as at `make_room`.
fn erase_gap<P: Pmem>(alloc: Global, device: &mut P, current: &Record) -> Result<(), Refusal>
    requires readable { IsReadable current.now (P.state device.old) }
    requires some { 0 < length current.now.gaps.items }
    ensures readable { OnOk result (IsReadable current.now (P.state device.new)) }
    ensures cleared { OnOk result (AreCleared current.now.layout (P.state device.old).lines (λ stamp. is_in_gap stamp (oldest_gap current.now))
        (image_of (P.state device.old).words) (image_of (P.state device.new).words)) }
    ensures lines { (P.state device.new).lines ≡ (P.state device.old).lines }
    ensures sound { OnOk result ((P.state device.new).failures ≡ (P.state device.old).failures) }
    ensures causes { IfErr result (λ refusal. (refusal ≡ Refusal.Fault) ⊎ (refusal ≡ Refusal.Memory)) }
    ensures memory { IsErrOf result Refusal.Memory → device.new ≡ device.old }
    ensures fault { IsErrOf result Refusal.Fault → (P.state device.old).failures < (P.state device.new).failures }
    ensures asked_moment { (P.state device.new).kept ≡ (P.state device.old).kept }
    ensures moments { LeavesOnly (P.state device.old) (P.state device.new)
        (StaysReadable (P.state device.old).lines current.now (image_of (P.state device.old).words)) }
{
    let stamped = stamped_in(alloc, device, current.layout, oldest_gap(current))?;
    match erase_stamps(device, stamped.begins.as_slice(), stamped.ends.as_slice()) {
        Ok(()) => Ok(()),
        Err(Fault) => Err(Refusal::Fault),
    }
}

/// Writes the record in which the stamps that were perhaps given out after the current one are a gap, and syncs. On `Err` a fence or the sync has failed.
fn add_open_gap<P: Pmem>(device: &mut P, current: Record) -> Result<Record, Fault>
    requires readable { IsReadable current (P.state device.old) }
    requires room { length current.gaps.items < max_gaps current.layout }
    requires limit { current.cd + 1 + STAMP_WINDOW < COUNTER_LIMIT }
    requires number { current.number + 1 < COUNTER_LIMIT }
    ensures next { IfOk result (λ next. next ≡ with_open_gap current) }
    ensures readable { OnOk result (IsReadable (with_open_gap current) (P.state device.new)) }
    ensures beside { OnOk result ((word : ℕ) → IsBesideRecords current.layout (P.state device.old).lines word
        → image_of (P.state device.new).words word ≡ image_of (P.state device.old).words word) }
    ensures lines { (P.state device.new).lines ≡ (P.state device.old).lines }
    ensures sound { OnOk result ((P.state device.new).failures ≡ (P.state device.old).failures) }
    ensures fault { OnErr result ((P.state device.old).failures < (P.state device.new).failures) }
    ensures synced { OnOk result (P.floor device.new ≡ moment (P.state device.new)) }
    ensures asked_moment { (P.state device.new).kept ≡ (P.state device.old).kept }
    ensures moments { LeavesOnly (P.state device.old) (P.state device.new)
        (StaysReadable (P.state device.old).lines current (image_of (P.state device.old).words)) }
{
    let next = with_open_gap(current);
    write_durably(device, &next)?;
    Ok(next)
}

/// The record after this one, in which the stamps that were perhaps given out are a gap.
fn with_open_gap(current: Record) -> Record
    requires room { length current.gaps.items < max_gaps current.layout }
    requires some { 0 < current.cd }
    requires limit { current.cd + 1 + STAMP_WINDOW < COUNTER_LIMIT }
    requires below { current.cp < current.cd }
    requires number { current.number + 1 < COUNTER_LIMIT }
    ensures { result ≡ with_open_gap current }
{
    let mut gaps = current.gaps;
    gaps.push(Gap {
        first: current.cp + 1,
        last: current.cd - 1,
    });
    Record {
        number: current.number + 1,
        cp: current.cd,
        cd: current.cd + 1 + STAMP_WINDOW,
        gaps,
        ..current
    }
}

/// Whether a counter of the reopened record would reach 2^62.
fn exhausts(current: &Record) -> bool
    requires { IsLawful current.now }
    ensures { IsTrue result ↔ ExhaustsReopening current.now }
{
    let records = if is_full(current) { 2 } else { 1 };
    current.cd + 1 + STAMP_WINDOW >= COUNTER_LIMIT || current.number + records >= COUNTER_LIMIT
}

//! A version that has ended, moved on a simulated device and read again.
ghost use Rattle.std.specs.Prelude.{◌≡◌, ℕ, [], ◌∷◌, IfOk};
ghost use Rattle.pmem.specs.Sim.{state_of};
ghost use Rattle.model.specs.declared.group.PlacedChange.TheVariants as placed;
ghost use Rattle.model.specs.Group.{Contents};
ghost use Rattle.model.specs.Image.{Version};
ghost use Rattle.wbl_migrate.specs.Ended.{IsMoving};
ghost use Rattle.wbl_migrate.specs.TwoSets.{IsTwoSets, set_at};

use crate::move_ended;
use heap_layout::Entry;
use kv_types::{EntryNo, Extent, Key, RecordId, Refusal, Value};
use model::{FIRST_EPOCH, Group, LAYOUT, MIN_LINES, Part, PlacedChange, Put, Record, Role};
use pmem::{Crashing, Fault, SimPmem};
use std::alloc::{AllocError, Global};
use wbl_engine::{Durable, Versions, WblEngine};
use wbl_record::read_current;

/// `SET a` with a value of one byte, in this entry and this line.
fn set(alloc: Global, byte: u8, entry: u64, line: u64) -> Result<PlacedChange, AllocError>
    ensures { IfOk result (λ change. change ≡ placed.Put (set_at byte entry line)) }
{
    Ok(PlacedChange::Put(Put {
        id: RecordId::Str(Key::new(alloc, b"a")?),
        value: Value::new(alloc, &[byte])?,
        entry: EntryNo(entry),
        extent: Extent {
            first_line: line,
            lines: 1,
        },
    }))
}

/// A part of one change.
fn part(
    alloc: Global,
    position: u64,
    change: PlacedChange,
    ended: Vec<EntryNo>,
) -> Result<Part, AllocError>
    ensures position { IfOk result (λ part. part.position ≡ position) }
    ensures changes { IfOk result (λ part. part.changes.items ≡ change ∷ []) }
    ensures ended { IfOk result (λ part. part.ended.items ≡ ended.items) }
{
    let mut changes = Vec::with_capacity(alloc, 1)?;
    changes.push_reserved(change);
    Ok(Part {
        position,
        changes,
        ended,
    })
}

/// This entry alone.
fn one_entry(alloc: Global, entry: u64) -> Result<Vec<EntryNo>, AllocError>
    ensures { IfOk result (λ entries. entries.items ≡ record { 0 = entry } ∷ []) }
{
    let mut entries = Vec::with_capacity(alloc, 1)?;
    entries.push_reserved(EntryNo(entry));
    Ok(entries)
}

/// `SET a 1` and then `SET a 2`, in these two entries.
fn two_sets(alloc: Global, first_entry: u64, second_entry: u64) -> Result<Group, AllocError>
    ensures { IfOk result (IsTwoSets first_entry second_entry) }
{
    let first = part(
        alloc,
        1,
        set(alloc, b'1', first_entry, 520)?,
        Vec::new(alloc),
    )?;
    let ended = one_entry(alloc, first_entry)?;
    let second = part(alloc, 2, set(alloc, b'2', second_entry, 521)?, ended)?;
    let mut parts = Vec::with_capacity(alloc, 2)?;
    parts.push_reserved(first);
    parts.push_reserved(second);
    Ok(Group {
        epoch: FIRST_EPOCH,
        before: 0,
        parts,
    })
}

/// A device with an image of both, where the first version has ended, and its record.
fn image_of_both(alloc: Global) -> Result<(SimPmem, Record), Refusal>
    ensures { IfOk result (λ made. (contents : Contents) × (version : Version) × IsMoving made.1 (state_of made.0) contents 0 5 600 version) }
{
    let group = two_sets(alloc, 0, 1)?;
    match WblEngine::format(SimPmem::new(alloc, MIN_LINES)?, Role::Primary, FIRST_EPOCH) {
        Ok(engine) => {
            let mut engine = engine;
            engine.commit(&group, 0)?;
            let device = engine.into_device();
            let current = read_current(&device)?;
            Ok((device, current))
        }
        Err((refusal, _)) => Err(refusal),
    }
}

/// The versions that are read after a crash.
fn reopened(alloc: Global, device: SimPmem) -> Result<Versions, Refusal> {
    let mut device = device;
    device.crash(&[]);
    match WblEngine::reopen(alloc, device, LAYOUT, Role::Primary) {
        Ok((_, versions)) => Ok(versions),
        Err((refusal, _)) => Err(refusal),
    }
}

/// Whether the entry holds this version of `a`, in one line.
fn is_version(entry: &Entry, stamps: (u64, u64), position: u64, line: u64, byte: u8) -> bool {
    let is_a = match &entry.id {
        RecordId::Str(key) => key.as_slice() == b"a".as_slice(),
        RecordId::Field(..) => false,
    };
    is_a && entry.value.as_slice() == [byte].as_slice()
        && entry.begin == stamps.0
        && entry.end == stamps.1
        && entry.position == position
        && entry.extent.first_line == line
        && entry.extent.lines == 1
}

#[test]
fn moves_what_has_ended(rt: HostRuntime) -> Result<(), Refusal> {
    let (device, current) = image_of_both(rt.alloc())?;
    let mut device = device;
    let moved = move_ended(&mut device, &current, EntryNo(0), EntryNo(5), 600);
    assert!(rt; moved.is_ok());
    let versions = reopened(rt.alloc(), device)?;
    assert!(rt; versions.counted.len() == 2);
    let (live, version) = &versions.counted[0];
    assert!(rt; *live == EntryNo(1) && is_version(version, (2, 0), 2, 521, b'2'));
    let (ended, version) = &versions.counted[1];
    assert!(rt; *ended == EntryNo(5) && is_version(version, (1, 2), 1, 600, b'1'));
    Ok(())
}

//! Live versions that leave the end of the directory for other places.
ghost use Rattle.std.specs.Prelude.{◌≡◌, ◌⊎◌, ℕ, ◌+◌, ◌<◌, [], ◌∷◌, length, Some, OnOk, OnErr, Err, IfOk, IfErr, IsErrOf};
ghost use Rattle.model.specs.declared.group.PlacedChange.TheVariants as placed;
ghost use Rattle.wbl_engine.specs.Relocating.{ExhaustsRelocation};
ghost use Rattle.wbl_migrate.specs.Leaving.{AreLeaving};
ghost use Rattle.wbl_migrate.specs.Moving.{AreKnown, AreMoved, HasMoved, IsLeft, IsReady, IsRoomFor, IsStep, MovesLive, put_again, version_read};

use crate::choosing::{choose, entries_kept, places_of};
use heap_layout::{Entry, Versions, lines_for};
use kv_types::{EntryNo, Extent, Refusal};
use model::{Part, PlacedChange, Put};
use std::alloc::Global;
use wbl_engine::{Durable, free_unraised};

/// A place for a version.
#[derive(Clone, Copy, Debug, PartialEq, Eq)]
pub struct Place {
    pub entry: EntryNo,
    pub extent: Extent,
}

/// Moves a live version from its entry to another place: it is made again there, with its record, its value and its position, and then its entry is freed.
///
/// # Errors
///
/// `Exhausted` if a counter would reach 2^62, with nothing changed. `Memory` if an allocation was refused: the version lies where it was, or in both places,
/// and is ended in the old one. `Fault` if a fence failed.
pub fn move_version<E: Durable>(
    engine: &mut E,
    alloc: Global,
    from: EntryNo,
    version: &Entry,
    place: Place,
) -> Result<(), Refusal>
    requires ready { IsReady E.device E.contents E.is_faulted engine.old }
    requires held { (E.contents engine.old).versions from.0 ≡ Some (version_read version.now) }
    requires live { version.now.end ≡ 0 }
    requires room { IsRoomFor (E.contents engine.old) version.now place }
    ensures moved { OnOk result (HasMoved (E.contents engine.old) from version.now place (E.contents engine.new)) }
    ensures causes { IfErr result (λ refusal. (refusal ≡ Refusal.Fault) ⊎ ((refusal ≡ Refusal.Exhausted) ⊎ (refusal ≡ Refusal.Memory))) }
    ensures exhausted { IsErrOf result Refusal.Exhausted → ExhaustsRelocation 1 (E.contents engine.old).current × (engine.new ≡ engine.old) }
    ensures step { IsStep E.device E.contents E.is_faulted MovesLive engine.old result engine.new }
{
    let part = make_again(alloc, from, version, place)?;
    engine.relocate(std::slice::from_ref(&part))?;
    free_unraised(engine, alloc, &part.ended)?;
    Ok(())
}

/// Moves each live version that lies in an entry that version 2 does not keep, one of the last of the directory, to the lowest free entry and the lowest run
/// of free lines. `versions` is what was read of the image, and `cleared` are the entries that the clearing of its gaps made free. Versions that have ended
/// stay where they are. Returns where each version lies then, in the order in which they were read.
///
/// # Errors
///
/// `Full` where no place is found for one of them; `Exhausted` where a counter would reach 2^62; `Memory` if an allocation was refused: some may be moved,
/// and one may lie in both places, ended in the old one. `Fault` if a fence failed.
pub fn move_live<E: Durable>(
    engine: &mut E,
    alloc: Global,
    versions: &Versions,
    cleared: &[EntryNo],
) -> Result<Vec<Place>, Refusal>
    requires ready { IsReady E.device E.contents E.is_faulted engine.old }
    requires known { AreKnown (E.contents engine.old) versions.now.counted.items versions.now.gapped.items cleared.now }
    ensures emptied { OnOk result (¬ IsLeft (E.contents engine.new)) }
    ensures leaving { IfOk result (λ places. AreLeaving (E.contents engine.new) versions.now.counted.items versions.now.gapped.items cleared.now places.items 0) }
    ensures causes { IfErr result (λ refusal. (refusal ≡ Refusal.Full) ⊎ (refusal ≡ Refusal.Fault) ⊎ ((refusal ≡ Refusal.Exhausted) ⊎ (refusal ≡ Refusal.Memory))) }
    ensures full { IsErrOf result Refusal.Full → IsLeft (E.contents engine.new) }
    ensures exhausted { IsErrOf result Refusal.Exhausted → ExhaustsRelocation 1 (E.contents engine.new).current }
    ensures step { IsStep E.device E.contents E.is_faulted MovesLive engine.old result engine.new }
{
    let mut places = places_of(alloc, &versions.counted)?;
    for index in 0..versions.counted.len() {
        move_next(engine, alloc, versions, cleared, index, &mut places)?;
    }
    Ok(places)
}

/// Moves the version that was read at this index, if it is live and its entry is not kept. Errors as at `move_live`; where there is no place, nothing changed.
fn move_next<E: Durable>(
    engine: &mut E,
    alloc: Global,
    versions: &Versions,
    cleared: &[EntryNo],
    index: usize,
    places: &mut Vec<Place>,
) -> Result<(), Refusal>
    requires ready { IsReady E.device E.contents E.is_faulted engine.old }
    requires within { index < length versions.now.counted.items }
    requires so_far { AreMoved (E.contents engine.old) versions.now.counted.items versions.now.gapped.items cleared.now places.old.items index }
    ensures moved { OnOk result (AreMoved (E.contents engine.new) versions.now.counted.items versions.now.gapped.items cleared.now places.new.items (index + 1)) }
    ensures causes { IfErr result (λ refusal. (refusal ≡ Refusal.Full) ⊎ (refusal ≡ Refusal.Fault) ⊎ ((refusal ≡ Refusal.Exhausted) ⊎ (refusal ≡ Refusal.Memory))) }
    ensures full { IsErrOf result Refusal.Full → IsLeft (E.contents engine.new) }
    ensures exhausted { IsErrOf result Refusal.Exhausted → ExhaustsRelocation 1 (E.contents engine.new).current }
    ensures step { IsStep E.device E.contents E.is_faulted MovesLive engine.old result engine.new }
{
    let read = &versions.counted[index];
    let version = &read.1;
    let lines = engine.lines();
    if read.0.0 < entries_kept(lines) || version.end != 0 {
        return Ok(());
    }
    let wanted = lines_for(&version.id, &version.value);
    let Some(place) = choose(alloc, lines, places, &versions.gapped, cleared, wanted)? else {
        return Err(Refusal::Full);
    };
    move_version(engine, alloc, read.0, version, place)?;
    places[index] = place;
    Ok(())
}

/// The part that makes a version again in another place, and names the entry where that ends it. `Memory`, its only error, if an allocation was refused.
fn make_again(alloc: Global, from: EntryNo, version: &Entry, place: Place) -> Result<Part, Refusal>
    ensures position { IfOk result (λ part. part.position ≡ version.now.position) }
    ensures changes { IfOk result (λ part. part.changes.items ≡ placed.Put (put_again version.now place) ∷ []) }
    ensures ended { IfOk result (λ part. part.ended.items ≡ from ∷ []) }
    ensures cause { OnErr result (result ≡ Err Refusal.Memory) }
{
    let put = Put {
        id: version.id.clone()?,
        value: version.value.clone()?,
        entry: place.entry,
        extent: place.extent,
    };
    let mut changes = Vec::new(alloc);
    changes.push(PlacedChange::Put(put))?;
    let mut ended = Vec::new(alloc);
    ended.push(from)?;
    Ok(Part {
        position: version.position,
        changes,
        ended,
    })
}

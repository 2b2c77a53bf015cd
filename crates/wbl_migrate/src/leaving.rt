//! What has ended leaves the end of the directory, once the live versions have.
ghost use Rattle.std.specs.Prelude.{◌≡◌, ◌⊎◌, ◌+◌, ◌<◌, length, OnOk, IfErr, IsErrOf};
ghost use Rattle.pmem.specs.Runs.{LeavesOnly};
ghost use Rattle.model.specs.Group.{Contents};
ghost use Rattle.wbl_migrate.specs.Leaving.{AreLeaving, HasLeft, HasNoneLeft, HasOneLeft, IsHeld, MovesEnded};
ghost use Rattle.wbl_migrate.specs.Moving.{HoldsBy};

use crate::choosing::{choose, entries_kept};
use crate::ended::move_ended;
use crate::moving::Place;
use heap_layout::Versions;
use kv_types::{EntryNo, Refusal};
use model::Record;
use pmem::{Fault, Pmem};
use std::alloc::Global;

/// Moves each version that has ended and lies in an entry that version 2 does not keep, one of the last of the directory, to the lowest free entry and the
/// lowest run of free lines. `versions` is what was read of the image, `cleared` are the entries that the clearing of its gaps made free, and in `places` each
/// version lies by now. No stamp is given out, and no record is written.
///
/// # Errors
///
/// `Full` where no place is found for one of them; `Memory` if an allocation was refused: some may be moved. `Fault` if a fence failed.
pub fn move_all_ended<P: Pmem>(
    device: &mut P,
    alloc: Global,
    current: &Record,
    versions: &Versions,
    cleared: &[EntryNo],
    places: Vec<Place>,
) -> Result<(), Refusal>
    requires { (contents : Contents) × IsHeld current.now (P.state device.old) contents
        × AreLeaving contents versions.now.counted.items versions.now.gapped.items cleared.now places.items 0 }
    ensures emptied { OnOk result ((contents : Contents) → IsHeld current.now (P.state device.old) contents
        → AreLeaving contents versions.now.counted.items versions.now.gapped.items cleared.now places.items 0
        → HasNoneLeft current.now (P.state device.new) contents) }
    ensures causes { IfErr result (λ refusal. (refusal ≡ Refusal.Full) ⊎ ((refusal ≡ Refusal.Fault) ⊎ (refusal ≡ Refusal.Memory))) }
    ensures full { IsErrOf result Refusal.Full → (contents : Contents) → IsHeld current.now (P.state device.old) contents
        → AreLeaving contents versions.now.counted.items versions.now.gapped.items cleared.now places.items 0
        → HasOneLeft current.now (P.state device.new) contents }
    ensures fault { IsErrOf result Refusal.Fault → (P.state device.old).failures < (P.state device.new).failures }
    ensures sound { ¬ IsErrOf result Refusal.Fault → (P.state device.new).failures ≡ (P.state device.old).failures }
    ensures line_count { (P.state device.new).lines ≡ (P.state device.old).lines }
    ensures asked_moment { (P.state device.new).kept ≡ (P.state device.old).kept }
    // the same map under the same record, at any moment of the call
    ensures moments { (contents : Contents) → IsHeld current.now (P.state device.old) contents
        → AreLeaving contents versions.now.counted.items versions.now.gapped.items cleared.now places.items 0
        → LeavesOnly (P.state device.old) (P.state device.new) (HoldsBy MovesEnded contents) }
{
    let mut places = places;
    for index in 0..versions.counted.len() {
        move_next_ended(
            device,
            alloc,
            current,
            versions,
            cleared,
            index,
            &mut places,
        )?;
    }
    Ok(())
}

/// Moves the version that was read at this index, if it has ended and its entry is not kept. Errors as at `move_all_ended`; where there is no place, nothing
/// changed.
fn move_next_ended<P: Pmem>(
    device: &mut P,
    alloc: Global,
    current: &Record,
    versions: &Versions,
    cleared: &[EntryNo],
    index: usize,
    places: &mut Vec<Place>,
) -> Result<(), Refusal>
    requires within { index < length versions.now.counted.items }
    requires so_far { (contents : Contents) × IsHeld current.now (P.state device.old) contents
        × AreLeaving contents versions.now.counted.items versions.now.gapped.items cleared.now places.old.items index }
    ensures moved { OnOk result ((contents : Contents) → IsHeld current.now (P.state device.old) contents
        → AreLeaving contents versions.now.counted.items versions.now.gapped.items cleared.now places.old.items index
        → HasLeft current.now (P.state device.new) contents versions.now.counted.items versions.now.gapped.items cleared.now places.new.items (index + 1)) }
    ensures causes { IfErr result (λ refusal. (refusal ≡ Refusal.Full) ⊎ ((refusal ≡ Refusal.Fault) ⊎ (refusal ≡ Refusal.Memory))) }
    ensures full { IsErrOf result Refusal.Full → (contents : Contents) → IsHeld current.now (P.state device.old) contents
        → AreLeaving contents versions.now.counted.items versions.now.gapped.items cleared.now places.old.items index
        → HasOneLeft current.now (P.state device.new) contents }
    ensures unmoved { IsErrOf result Refusal.Full → P.state device.new ≡ P.state device.old }
    ensures fault { IsErrOf result Refusal.Fault → (P.state device.old).failures < (P.state device.new).failures }
    ensures sound { ¬ IsErrOf result Refusal.Fault → (P.state device.new).failures ≡ (P.state device.old).failures }
    ensures line_count { (P.state device.new).lines ≡ (P.state device.old).lines }
    ensures asked_moment { (P.state device.new).kept ≡ (P.state device.old).kept }
    ensures moments { (contents : Contents) → IsHeld current.now (P.state device.old) contents
        → AreLeaving contents versions.now.counted.items versions.now.gapped.items cleared.now places.old.items index
        → LeavesOnly (P.state device.old) (P.state device.new) (HoldsBy MovesEnded contents) }
{
    let (from, version) = &versions.counted[index];
    let lines = device.lines();
    if from.0 < entries_kept(lines) || version.end == 0 {
        return Ok(());
    }
    let wanted = version.extent.lines;
    let Some(place) = choose(alloc, lines, places, &versions.gapped, cleared, wanted)? else {
        return Err(Refusal::Full);
    };
    match move_ended(device, current, *from, place.entry, place.extent.first_line) {
        Ok(()) => {
            places[index] = place;
            Ok(())
        }
        Err(Fault) => Err(Refusal::Fault),
    }
}

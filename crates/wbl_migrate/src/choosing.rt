//! Where a version may go that has to leave the end of the directory: a free entry that is kept, and free lines.
ghost use Rattle.std.specs.Prelude.{◌≡◌, ◌+◌, ◌≤◌, ◌↔◌, IsTrue, IfOk, IfSome, map};
ghost use Rattle.model.specs.declared.image.TheConstants.{MAX_LINES};
ghost use Rattle.wbl_engine.specs.Freeing.{is_listed};
ghost use Rattle.wbl_migrate.specs.Moving.{IsOpen, are_apart, are_two, entries_kept, is_clear, place_read};

use crate::moving::Place;
use heap_layout::Entry;
use kv_types::{EntryNo, Extent};
use model::Layout;
use std::alloc::{AllocError, Global};

/// How many entries the directory of an image of `lines` lines has in version 2.
pub(crate) fn entries_kept(lines: u64) -> u64
    ensures { result ≡ entries_kept lines }
{
    Layout::Version2.entries_of_lines(lines)
}

/// Where the versions lie that were read, in order.
pub(crate) fn places_of(
    alloc: Global,
    counted: &[(EntryNo, Entry)],
) -> Result<Vec<Place>, AllocError>
    ensures { IfOk result (λ places. places.items ≡ map place_read counted.now) }
{
    let mut places = Vec::new(alloc);
    for (no, entry) in counted {
        places.push(Place {
            entry: *no,
            extent: entry.extent,
        })?;
    }
    Ok(places)
}

/// The lowest free entry and the lowest run of so many free lines, where the entry is one that is kept. Beside these places, an entry is taken that was begun
/// in a gap that was not cleared.
///
/// What is found is tried against each of the places before it is given out.
pub(crate) fn choose(
    alloc: Global,
    lines: u64,
    places: &[Place],
    gapped: &[EntryNo],
    cleared: &[EntryNo],
    wanted: u64,
) -> Result<Option<Place>, AllocError>
    requires { lines ≤ MAX_LINES }
    ensures open { IfOk result (λ found. IfSome found (λ place. IsOpen lines places.now gapped.now cleared.now place)) }
    ensures wanted { IfOk result (λ found. IfSome found (λ place. place.extent.lines ≡ wanted)) }
{
    let Some(entry) = lowest_entry(alloc, entries_kept(lines), places, gapped, cleared)? else {
        return Ok(None);
    };
    let first_line = lowest_line(alloc, places, Layout::first_extent_line(lines), wanted)?;
    let extent = Extent {
        first_line,
        lines: wanted,
    };
    let place = Place { entry, extent };
    if is_open(lines, places, gapped, cleared, place) {
        Ok(Some(place))
    } else {
        Ok(None)
    }
}

/// Whether a version may go to this place.
fn is_open(
    lines: u64,
    places: &[Place],
    gapped: &[EntryNo],
    cleared: &[EntryNo],
    place: Place,
) -> bool
    requires { lines ≤ MAX_LINES }
    ensures { IsTrue result ↔ IsOpen lines places.now gapped.now cleared.now place }
{
    place.entry.0 < entries_kept(lines)
        && (!lists(gapped, place.entry) || lists(cleared, place.entry))
        && Layout::first_extent_line(lines) <= place.extent.first_line
        && ends_by(place.extent, lines)
        && is_clear(place, places)
}

/// Whether the entry is one of these.
fn lists(entries: &[EntryNo], entry: EntryNo) -> bool
    ensures { result ≡ is_listed entry.0 entries.now }
{
    for one in entries {
        if entry.0 == one.0 {
            return true;
        }
    }
    false
}

/// Whether the place shares neither its entry nor a line with any of the others.
fn is_clear(place: Place, others: &[Place]) -> bool
    ensures { result ≡ is_clear place others.now }
{
    for other in others {
        if !are_two(place, *other) {
            return false;
        }
    }
    true
}

/// Whether the two share neither their entry nor a line.
fn are_two(place: Place, other: Place) -> bool
    ensures { result ≡ are_two place other }
{
    place.entry.0 != other.entry.0 && are_apart(place.extent, other.extent)
}

/// Whether no line is in both.
fn are_apart(a: Extent, b: Extent) -> bool
    ensures { result ≡ are_apart a b }
{
    ends_by(a, b.first_line) || ends_by(b, a.first_line)
}

/// Whether the extent ends at or below this line.
fn ends_by(extent: Extent, line: u64) -> bool
    ensures { IsTrue result ↔ (extent.first_line + extent.lines ≤ line) }
{
    extent.lines <= line && extent.first_line <= line - extent.lines
}

/// The lowest entry below `end` that seems to be free.
fn lowest_entry(
    alloc: Global,
    end: u64,
    places: &[Place],
    gapped: &[EntryNo],
    cleared: &[EntryNo],
) -> Result<Option<EntryNo>, AllocError> {
    let mut free = vec![in alloc; true; end as usize]?;
    mark(&mut free, gapped, false);
    mark(&mut free, cleared, true);
    mark_places(&mut free, places);
    for (i, is_free) in free.iter().enumerate() {
        if *is_free {
            return Ok(Some(EntryNo(i as u64)));
        }
    }
    Ok(None)
}

/// Marks these entries.
fn mark(free: &mut Vec<bool>, entries: &[EntryNo], is_free: bool) {
    for entry in entries {
        if let Some(one) = free.get_mut(entry.0 as usize) {
            *one = is_free;
        }
    }
}

/// Marks the entries of these places as taken.
fn mark_places(free: &mut Vec<bool>, places: &[Place]) {
    for place in places {
        if let Some(one) = free.get_mut(place.entry.0 as usize) {
            *one = false;
        }
    }
}

/// The lowest line from `first` on where so many lines in a row seem to be free.
fn lowest_line(
    alloc: Global,
    places: &[Place],
    first: u64,
    wanted: u64,
) -> Result<u64, AllocError> {
    let mut extents: Vec<Extent> = places.iter().map(|place| place.extent).collect(alloc)?;
    extents.sort_unstable_by_key(|extent| extent.first_line);
    let mut floor = first;
    for extent in &extents {
        if extent.first_line >= floor && extent.first_line - floor >= wanted {
            return Ok(floor);
        }
        floor = floor.max(extent.first_line.saturating_add(extent.lines));
    }
    Ok(floor)
}

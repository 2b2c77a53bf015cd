//! Entries and extents that a call gives back.
ghost use Rattle.std.specs.Prelude.{◌≡◌, ◌<◌, map, IfOk};
ghost use Rattle.pmem.specs.Crash.{image_of};
ghost use Rattle.model.specs.Image.{entry_line};
ghost use Rattle.wbl_engine.specs.Erasing.{extent_in};
ghost use Rattle.wbl_engine.specs.Stage.{AreWithin};

use heap_layout::entry_word;
use kv_types::{EntryNo, Extent};
use pmem::Pmem;
use std::alloc::{AllocError, Global};

/// What a call has made free: the entries, and the extents of those that held a version.
#[derive(Debug, Drop)]
pub struct Freed {
    pub entries: Vec<EntryNo>,
    pub extents: Vec<Extent>,
}

impl Freed {
    ghost use Rattle.std.specs.Prelude.{◌≡◌, []};

    /// Nothing was made free.
    pub(crate) fn none(alloc: Global) -> Freed
        ensures entries { result.entries.items ≡ [] }
        ensures extents { result.extents.items ≡ [] }
    {
        Freed {
            entries: Vec::new(alloc),
            extents: Vec::new(alloc),
        }
    }
}

/// The extents that these entries name, in order. `AllocError` if an allocation was refused.
pub(crate) fn named_extents<P: Pmem>(
    alloc: Global,
    device: &P,
    entries: &[EntryNo],
) -> Result<Vec<Extent>, AllocError>
    requires { AreWithin (P.state device.now).lines entries.now }
    ensures { IfOk result (λ extents. extents.items ≡ map (λ entry. extent_in (image_of (P.state device.now).words) entry.0) entries.now) }
{
    let mut extents = Vec::new(alloc);
    for entry in entries {
        extents.push(extent_of(device, *entry))?;
    }
    Ok(extents)
}

/// The entries that are to be freed, with the extent that each names. `AllocError` if an allocation was refused.
pub fn freed_by<P: Pmem>(
    alloc: Global,
    device: &P,
    entries: &[EntryNo],
) -> Result<Freed, AllocError>
    requires { AreWithin (P.state device.now).lines entries.now }
    ensures entries { IfOk result (λ freed. freed.entries.items ≡ entries.now) }
    ensures extents { IfOk result (λ freed. freed.extents.items ≡ map (λ entry. extent_in (image_of (P.state device.now).words) entry.0) entries.now) }
{
    Ok(Freed {
        entries: entries.to_vec(alloc)?,
        extents: named_extents(alloc, device, entries)?,
    })
}

/// The extent that an entry names.
pub(crate) fn extent_of<P: Pmem>(device: &P, entry: EntryNo) -> Extent
    requires { entry_line entry.0 < (P.state device.now).lines }
    ensures { result ≡ extent_in (image_of (P.state device.now).words) entry.0 }
{
    Extent {
        first_line: device.load(entry_word(entry, 3)),
        lines: device.load(entry_word(entry, 4)),
    }
}

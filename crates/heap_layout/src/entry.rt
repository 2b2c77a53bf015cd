//! The entries of the directory, each one version of a record, with its extent.
ghost use Rattle.std.specs.Prelude.{◌≡◌, ◌↔◌, ◌⊎◌, ◌<◌, ◌≤◌, Ok, Err, None, IfOk, IfErr, IfSome};
ghost use Rattle.pmem.specs.Crash.{image_of};
ghost use Rattle.model.specs.declared.image.TheConstants.{MIN_LINES};
ghost use Rattle.model.specs.Image as images;
ghost use Rattle.heap_layout.specs.Entry.{IsEntry, IsDamaged, entry_in};

use crate::place::entry_word;
use crate::shape::{Shape, read_record};
use kv_types::{EntryNo, Extent, RecordId, Refusal, Value};
use pmem::Pmem;
use std::alloc::Global;

/// The kind of a string.
pub const STRING_KIND: u64 = 1;

/// The kind of a field of a hash.
pub const FIELD_KIND: u64 = 2;

/// A version of a record, as an entry and its extent hold it.
#[derive(Debug, Drop)]
pub struct Entry {
    /// The stamp under which it began, from 1.
    pub begin: u64,
    /// The stamp under which it ended, or 0.
    pub end: u64,
    /// The position of the list at which it was made.
    pub position: u64,
    pub extent: Extent,
    pub id: RecordId,
    pub value: Value,
}

/// The stamps of an entry.
#[derive(Clone, Copy, Debug, PartialEq, Eq)]
pub struct Stamps {
    /// The stamp under which its version began, or 0 for a free entry.
    pub begin: u64,
    /// The stamp under which its version ended, or 0.
    pub end: u64,
}

/// Reads the stamps of an entry, of a free one too.
pub fn read_stamps<P: Pmem>(device: &P, no: EntryNo) -> Stamps
    requires image { MIN_LINES ≤ (P.state device.now).lines }
    requires entry { no.0 < images.directory_room (P.state device.now).lines }
    ensures begin { result.begin ≡ image_of (P.state device.now).words (images.entry_word no.0 0) }
    ensures end { result.end ≡ image_of (P.state device.now).words (images.entry_word no.0 1) }
{
    Stamps {
        begin: load_of(device, no, 0),
        end: load_of(device, no, 1),
    }
}

/// Reads what an entry and its extent hold, or `None` where the entry is free. `Damaged` where a rule of the format is broken: a kind that
/// there is not, a string with a field, lengths beyond the limits, an extent that does not lie after the directory and within the image, or
/// one that has not just the lines of its bytes. `Memory` if an allocation was refused.
///
/// Whether the stamps count, and whether the position is one of the record's, is the caller's to say: of an entry whose begin does not
/// count, `Damaged` means nothing.
pub fn read_entry<P: Pmem>(alloc: Global, device: &P, no: EntryNo) -> Result<Option<Entry>, Refusal>
    requires image { MIN_LINES ≤ (P.state device.now).lines }
    requires entry { no.0 < images.directory_room (P.state device.now).lines }
    ensures ok { IfOk result (λ o. IfSome o (λ entry. entry ≡ entry_in (image_of (P.state device.now).words) no.0)) }
    ensures whole { IfOk result (λ o. IfSome o (λ entry. IsEntry (P.state device.now).lines (image_of (P.state device.now).words) no.0)) }
    ensures free { (result ≡ Ok None) ↔ (image_of (P.state device.now).words (images.entry_word no.0 0) ≡ 0) }
    ensures damaged { (result ≡ Err Refusal.Damaged) ↔ IsDamaged (P.state device.now).lines (image_of (P.state device.now).words) no.0 }
    ensures causes { IfErr result (λ refusal. (refusal ≡ Refusal.Damaged) ⊎ (refusal ≡ Refusal.Memory)) }
{
    let stamps = read_stamps(device, no);
    if stamps.begin == 0 {
        return Ok(None);
    }
    let Some(shape) = Shape::of_entry(device, no) else {
        return Err(Refusal::Damaged);
    };
    let (id, value) = read_record(alloc, device, shape)?;
    Ok(Some(Entry {
        begin: stamps.begin,
        end: stamps.end,
        position: load_of(device, no, 2),
        extent: shape.extent,
        id,
        value,
    }))
}

/// Word `k` of an entry.
pub(crate) fn load_of<P: Pmem>(device: &P, no: EntryNo, k: u64) -> u64
    requires image { MIN_LINES ≤ (P.state device.now).lines }
    requires entry { no.0 < images.directory_room (P.state device.now).lines }
    requires word { k < 8 }
    ensures { result ≡ image_of (P.state device.now).words (images.entry_word no.0 k) }
{
    device.load(entry_word(no, k))
}

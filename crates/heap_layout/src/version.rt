//! The versions of an image: its entries, as its record tells of them.
ghost use Rattle.std.specs.Prelude.{◌≡◌, ◌↔◌, ◌⊎◌, ◌<◌, ◌≤◌, Err, IfOk, IfErr, IfSome, OnOk};
ghost use Rattle.pmem.specs.Crash.{image_of};
ghost use Rattle.model.specs.declared.image.TheConstants.{MIN_LINES};
ghost use Rattle.model.specs.Layout.{directory_room};
ghost use Rattle.model.specs.Image.{version_at};
ghost use Rattle.heap_layout.specs.Entry.{entry_in};
ghost use Rattle.heap_layout.specs.Version.{version_if_read, IsUnder};

use crate::entry::{Entry, load_of, read_entry, read_stamps};
use kv_types::{EntryNo, Refusal};
use model::Record;
use pmem::Pmem;
use std::alloc::Global;

/// Reads the version in an entry, or `None` where its begin does not count under the record. `Damaged` where a stamp of the entry is not
/// below the record's `cd`; and, where the begin counts, if the entry breaks a rule that `read_entry` names, or its position is above the
/// record's. `Memory` if an allocation was refused.
///
/// That no two versions share a line, and that no record lives twice, is the caller's to see.
pub fn read_version<P: Pmem>(
    alloc: Global,
    device: &P,
    current: &Record,
    no: EntryNo,
) -> Result<Option<Entry>, Refusal>
    requires image { MIN_LINES ≤ (P.state device.now).lines }
    requires entry { no.0 < directory_room (P.state device.now).lines }
    ensures ok { IfOk result (λ o. IfSome o (λ entry. entry ≡ entry_in (image_of (P.state device.now).words) no.0)) }
    ensures version { IfOk result (λ o. version_if_read current.now o ≡ version_at current.now (image_of (P.state device.now).words) no.0) }
    ensures under { OnOk result (IsUnder current.now (P.state device.now).lines (image_of (P.state device.now).words) no.0) }
    ensures damaged { (result ≡ Err Refusal.Damaged) ↔ ¬ IsUnder current.now (P.state device.now).lines (image_of (P.state device.now).words) no.0 }
    ensures causes { IfErr result (λ refusal. (refusal ≡ Refusal.Damaged) ⊎ (refusal ≡ Refusal.Memory)) }
{
    let stamps = read_stamps(device, no);
    if stamps.begin >= current.cd || stamps.end >= current.cd {
        return Err(Refusal::Damaged);
    }
    if !current.counts(stamps.begin) {
        return Ok(None);
    }
    if load_of(device, no, 2) > current.position {
        return Err(Refusal::Damaged);
    }
    read_entry(alloc, device, no)
}

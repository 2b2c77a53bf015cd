//! All versions of an image, as its record tells of them.
ghost use Rattle.std.specs.Prelude.{◌≡◌, ℕ, ◌⊎◌, ◌<◌, ◌≤◌, ◌++◌, ◌↔◌, [], All, IsTrue, map, if◌then◌else◌, IfOk, IfErr, OnOk, IsErrOf};
ghost use Rattle.kv_types.specs.declared.refusal.Refusal.{Refusal};
ghost use Rattle.pmem.specs.Crash.{image_of};
ghost use Rattle.model.specs.declared.image.TheConstants.{MIN_LINES};
ghost use Rattle.model.specs.declared.record.Role.TheVariants.{Newcomer};
ghost use Rattle.model.specs.Layout.{directory_room, entries_of_lines};
ghost use Rattle.model.specs.Image.{counts};
ghost use Rattle.model.specs.ReadImage.{is_clash};
ghost use Rattle.heap_layout.specs.Version.{IsUnder};
ghost use Rattle.heap_layout.specs.Versions.{AreVersions, AreUnder, NoTwo, overlap, runs_of, live_ids, counted_at, counted_below, gapped_at, gapped_below};

use crate::apart::{are_apart, are_distinct};
use crate::entry::{Entry, read_stamps};
use crate::tagged::Tagged;
use crate::version::read_version;
use kv_types::{EntryNo, Extent, Refusal};
use model::{Record, Role};
use pmem::Pmem;
use std::alloc::{AllocError, Global};

/// All versions of an image under its record.
#[derive(Debug, Drop)]
pub struct Versions {
    /// The entries whose begin counts, in rising order, each with what it holds; an end that does not count is given as 0.
    pub counted: Vec<(EntryNo, Entry)>,
    /// The entries that were begun and do not count, in rising order.
    pub gapped: Vec<EntryNo>,
}

impl Versions {
    ghost use Rattle.std.specs.Prelude.{◌≡◌, length};
    ghost use Rattle.heap_layout.specs.Versions.{live_in};

    /// How many of the versions are live: those whose end is given as 0.
    pub fn count_live(&self) -> u64
        ensures { result ≡ length (live_in self.now.counted.items) }
    {
        self.counted
            .iter()
            .filter(|(_, version)| version.end == 0)
            .count() as u64
    }
}

/// Reads all versions of an image under its record. `Damaged` where an entry breaks a rule that `read_version` names, two extents share a
/// line, a record lives twice, a key has a live string and a live field, or a newcomer's image has a version. `Memory` if an allocation was refused.
pub fn read_versions<P: Pmem>(
    alloc: Global,
    device: &P,
    current: &Record,
) -> Result<Versions, Refusal>
    requires image { MIN_LINES ≤ (P.state device.now).lines }
    ensures counted { IfOk result (λ versions. versions.counted.items ≡ counted_below current.now (image_of (P.state device.now).words) (entries_of_lines current.now.layout (P.state device.now).lines)) }
    ensures gapped { IfOk result (λ versions. versions.gapped.items ≡ gapped_below current.now (image_of (P.state device.now).words) (entries_of_lines current.now.layout (P.state device.now).lines)) }
    ensures whole { OnOk result (AreVersions current.now (P.state device.now).lines (image_of (P.state device.now).words)) }
    ensures damaged { IsErrOf result Refusal.Damaged → ¬ AreVersions current.now (P.state device.now).lines (image_of (P.state device.now).words) }
    ensures causes { IfErr result (λ refusal. (refusal ≡ Refusal.Damaged) ⊎ (refusal ≡ Refusal.Memory)) }
{
    let versions = read_entries(alloc, device, current)?;
    let counted = versions.counted.as_slice();
    if !suits(current.role, counted) || !lie_apart(alloc, counted)? || !differ(alloc, counted)? {
        return Err(Refusal::Damaged);
    }
    Ok(versions)
}

/// Reads the versions of all entries, each by itself.
fn read_entries<P: Pmem>(alloc: Global, device: &P, current: &Record) -> Result<Versions, Refusal>
    requires image { MIN_LINES ≤ (P.state device.now).lines }
    ensures counted { IfOk result (λ versions. versions.counted.items ≡ counted_below current.now (image_of (P.state device.now).words) (entries_of_lines current.now.layout (P.state device.now).lines)) }
    ensures gapped { IfOk result (λ versions. versions.gapped.items ≡ gapped_below current.now (image_of (P.state device.now).words) (entries_of_lines current.now.layout (P.state device.now).lines)) }
    ensures under { OnOk result (AreUnder current.now (P.state device.now).lines (image_of (P.state device.now).words) (entries_of_lines current.now.layout (P.state device.now).lines)) }
    ensures damaged { IsErrOf result Refusal.Damaged → ¬ AreUnder current.now (P.state device.now).lines (image_of (P.state device.now).words) (entries_of_lines current.now.layout (P.state device.now).lines) }
    ensures causes { IfErr result (λ refusal. (refusal ≡ Refusal.Damaged) ⊎ (refusal ≡ Refusal.Memory)) }
{
    let mut versions = Versions {
        counted: Vec::new(alloc),
        gapped: Vec::new(alloc),
    };
    for i in 0..current.layout.entries_of_lines(device.lines()) {
        add_entry(alloc, device, current, EntryNo(i), &mut versions)?;
    }
    Ok(versions)
}

/// Adds what an entry holds, if it was begun.
fn add_entry<P: Pmem>(
    alloc: Global,
    device: &P,
    current: &Record,
    no: EntryNo,
    versions: &mut Versions,
) -> Result<(), Refusal>
    requires image { MIN_LINES ≤ (P.state device.now).lines }
    requires entry { no.0 < directory_room (P.state device.now).lines }
    ensures counted { OnOk result (versions.new.counted.items ≡ versions.old.counted.items ++ counted_at current.now (image_of (P.state device.now).words) no.0) }
    ensures gapped { OnOk result (versions.new.gapped.items ≡ versions.old.gapped.items ++ gapped_at current.now (image_of (P.state device.now).words) no.0) }
    ensures under { OnOk result (IsUnder current.now (P.state device.now).lines (image_of (P.state device.now).words) no.0) }
    ensures damaged { IsErrOf result Refusal.Damaged → ¬ IsUnder current.now (P.state device.now).lines (image_of (P.state device.now).words) no.0 }
    ensures causes { IfErr result (λ refusal. (refusal ≡ Refusal.Damaged) ⊎ (refusal ≡ Refusal.Memory)) }
{
    match read_version(alloc, device, current, no)? {
        Some(entry) => versions.counted.push((no, with_end(current, entry)))?,
        None => {
            if read_stamps(device, no).begin != 0 {
                versions.gapped.push(no)?;
            }
        }
    }
    Ok(())
}

/// The entry with an end of 0 where its end does not count.
fn with_end(current: &Record, entry: Entry) -> Entry
    ensures { result ≡ record entry { end = if counts current.now entry.end then entry.end else 0 } }
{
    if current.counts(entry.end) {
        return entry;
    }
    Entry { end: 0, ..entry }
}

/// Whether an image in this role may have these versions: a newcomer's has none.
fn suits(role: Role, versions: &[(EntryNo, Entry)]) -> bool
    ensures { IsTrue result ↔ (role ≡ Newcomer → versions.now ≡ []) }
{
    role != Role::Newcomer || versions.is_empty()
}

/// Whether no two of the versions have a line in common.
fn lie_apart(alloc: Global, versions: &[(EntryNo, Entry)]) -> Result<bool, AllocError>
    requires { All (λ run. 0 < run.lines) (runs_of versions.now) }
    ensures { IfOk result (λ apart. IsTrue apart ↔ NoTwo overlap (runs_of versions.now)) }
{
    let mut runs = extents(alloc, versions)?;
    Ok(are_apart(runs.as_mut_slice()))
}

/// Whether no two of the live versions clash.
fn differ(alloc: Global, versions: &[(EntryNo, Entry)]) -> Result<bool, AllocError>
    ensures { IfOk result (λ distinct. IsTrue distinct ↔ NoTwo is_clash (live_ids versions.now)) }
{
    let mut ids = names_of_live(alloc, versions)?;
    Ok(are_distinct(ids.as_mut_slice()))
}

/// The extents of the versions.
fn extents(alloc: Global, versions: &[(EntryNo, Entry)]) -> Result<Vec<Extent>, AllocError>
    ensures { IfOk result (λ runs. runs.items ≡ runs_of versions.now) }
{
    versions
        .iter()
        .map(|(_, entry)| entry.extent)
        .collect(alloc)
}

/// The records of the live versions.
fn names_of_live(
    alloc: Global,
    versions: &[(EntryNo, Entry)],
) -> Result<Vec<Tagged<'_>>, AllocError>
    ensures { IfOk result (λ ids. map (λ id. id.id.now) ids.items ≡ live_ids versions.now) }
{
    versions
        .iter()
        .filter(|(_, entry)| entry.end == 0)
        .map(|(_, entry)| Tagged::new(&entry.id))
        .collect(alloc)
}

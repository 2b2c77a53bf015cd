//! What a node holds in memory, made from the versions of its image.
ghost use Rattle.std.specs.Prelude.{◌≡◌, ◌≤◌, [], nat_eq, OnOk, OnErr, IfOk, IfErr};
ghost use Rattle.std.specs.List.{IsDistinct};
ghost use Rattle.model.specs.Group.{Contents};
ghost use Rattle.mv_keyspace.specs.Row.{cell_of_row, numbers_of, table_of};
ghost use Rattle.placing.specs.Read.{AreOf, ended_read, row_read, rows_read};
ghost use Rattle.placing.specs.Rebuilt.{AreEndedOf, AreFreeEntries, CanClaimAll, ClaimsAll, ClaimsEntries, IsRebuilt, RisesWith};

use extent_heap::ExtentHeap;
use heap_layout::Entry;
use kv_types::{EntryNo, Refusal};
use model::Layout;
use mv_keyspace::{Keyspace, Row};
use std::alloc::Global;

/// What a node holds in memory beside its keyspace, made from the versions of its image.
#[derive(Drop)]
pub struct Rebuilt {
    /// What no version has is free.
    pub heap: ExtentHeap,
    /// The entries of versions that have ended, in the order in which they were read.
    pub ended: Vec<EntryNo>,
}

/// Makes the keyspace and the heap of an image of this layout and `lines` lines from what was read of it: `counted` has each entry whose begin counts,
/// with an end of 0 where its version was not ended, and `gapped` each entry that a commit began and did not come to the end of. It takes some n log n
/// steps for n entries.
///
/// # Errors
///
/// Only `Memory`. The keyspace is still empty then.
pub fn rebuild<K: Keyspace>(
    alloc: Global,
    keyspace: &mut K,
    layout: Layout,
    lines: u64,
    counted: Vec<(EntryNo, Entry)>,
    gapped: &[EntryNo],
) -> Result<Rebuilt, Refusal>
    requires empty { K.table keyspace.old ≡ [] }
    requires read { (contents : Contents) × (contents.current.layout ≡ layout) × (contents.lines ≡ lines) × AreOf contents counted.items gapped.now }
    ensures ok { IfOk result (λ rebuilt. (contents : Contents) → contents.current.layout ≡ layout → contents.lines ≡ lines → AreOf contents counted.items gapped.now
        → IsRebuilt contents (K.table keyspace.new) rebuilt.heap × AreEndedOf contents (numbers_of rebuilt.ended.items)) }
    ensures rising { IfOk result (λ rebuilt. RisesWith counted.items (numbers_of rebuilt.ended.items)) }
    ensures err { OnErr result (K.table keyspace.new ≡ []) }
    ensures cause { IfErr result (λ refusal. refusal ≡ Refusal.Memory) }
    ensures past { K.past keyspace.new ≡ K.past keyspace.old }
    ensures pins { K.pins keyspace.new ≡ K.pins keyspace.old }
    // the last change is none after the record's position
    ensures last { OnOk result ((contents : Contents) → contents.current.layout ≡ layout → contents.lines ≡ lines → AreOf contents counted.items gapped.now
        → K.last keyspace.old ≤ contents.current.position → K.last keyspace.new ≤ contents.current.position) }
{
    let mut heap = ExtentHeap::new(
        alloc,
        Layout::first_extent_line(lines),
        lines,
        layout.entries_of_lines(lines),
    )?;
    claim_places(&mut heap, &counted)?;
    claim_entries(&mut heap, gapped);
    let ended = ended_among(alloc, &counted)?;
    keyspace.load(alloc, live_rows(alloc, counted)?)?;
    Ok(Rebuilt { heap, ended })
}

/// Takes the entries and the extents of all versions from the heap, also of those that have ended.
fn claim_places(heap: &mut ExtentHeap, counted: &[(EntryNo, Entry)]) -> Result<(), Refusal>
    requires { CanClaimAll heap.old counted.now }
    ensures ok { OnOk result (ClaimsAll heap.old counted.now heap.new) }
    ensures cause { IfErr result (λ refusal. refusal ≡ Refusal.Memory) }
{
    for (no, entry) in counted {
        heap.claim(entry.extent)?;
        heap.claim_entry(*no);
    }
    Ok(())
}

/// Takes these entries from the heap.
fn claim_entries(heap: &mut ExtentHeap, entries: &[EntryNo])
    requires free { AreFreeEntries heap.old entries.now }
    requires once { IsDistinct nat_eq (numbers_of entries.now) }
    ensures { ClaimsEntries heap.old entries.now heap.new }
{
    for &no in entries {
        heap.claim_entry(no);
    }
}

/// The entries of versions that have ended, in the order in which they were read.
fn ended_among(alloc: Global, counted: &[(EntryNo, Entry)]) -> Result<Vec<EntryNo>, Refusal>
    ensures ok { IfOk result (λ ended. numbers_of ended.items ≡ ended_read counted.now) }
    ensures cause { IfErr result (λ refusal. refusal ≡ Refusal.Memory) }
{
    let mut ended = Vec::new(alloc);
    for (no, entry) in counted {
        if entry.end != 0 {
            ended.push(*no)?;
        }
    }
    Ok(ended)
}

/// The rows of versions that have not ended.
fn live_rows(alloc: Global, counted: Vec<(EntryNo, Entry)>) -> Result<Vec<Row>, Refusal>
    ensures ok { IfOk result (λ rows. table_of rows.items ≡ rows_read counted.items) }
    ensures cause { IfErr result (λ refusal. refusal ≡ Refusal.Memory) }
{
    let mut rows = Vec::new(alloc);
    for (no, entry) in counted {
        if entry.end == 0 {
            rows.push(row_of(no, entry))?;
        }
    }
    Ok(rows)
}

/// The row of a version, in this entry of the directory.
fn row_of(no: EntryNo, entry: Entry) -> Row
    ensures { (result.id, cell_of_row result) ≡ row_read (no, entry) }
{
    Row {
        id: entry.id,
        value: entry.value,
        entry: no,
        position: entry.position,
    }
}

//! A new image: no magic until everything else is durable.
ghost use Rattle.std.specs.Prelude.{◌≡◌, ◌+◌, ◌*◌, ◌<◌, ◌≤◌, replicate, OnOk, OnErr};
ghost use Rattle.pmem.specs.Device.{moment};
ghost use Rattle.pmem.specs.Runs.{LeavesOnly, Runs, Staged, StageFailed, stores, pairs_from, lines_from};
ghost use Rattle.model.specs.declared.image.TheConstants.{COUNTER_LIMIT, MIN_LINES, MAX_LINES};
ghost use Rattle.model.specs.Image.{first_extent_line};
ghost use Rattle.wbl_engine.specs.AtRest.{IsAtRest};
ghost use Rattle.wbl_engine.specs.Formatting.{first_record, new_pairs, IsFormatting};

use arrayvec::ArrayVec;
use model::{LAYOUT, LINE_WORDS, Layout, MAGIC, Record, Role, STAMP_WINDOW};
use pmem::{Fault, Pmem, flush_lines, persist, persist_durably, store_words};
use wbl_record::words_of;

/// Formats a device: erases the magic, then writes everything else, then writes the magic, and syncs.
///
/// At any moment a crash leaves an image from before, the new one whole, or one without the magic. On `Err` a fence or the sync has failed.
pub fn format_device<P: Pmem>(device: &mut P, first: &Record) -> Result<(), Fault>
    requires many { MIN_LINES ≤ (P.state device.old).lines }
    requires few { (P.state device.old).lines ≤ MAX_LINES }
    requires first { first.now ≡ first_record first.now.role first.now.epoch }
    requires some_epoch { 0 < first.now.epoch }
    requires epoch { first.now.epoch < COUNTER_LIMIT }
    ensures rest { OnOk result (IsAtRest first.now (P.state device.new)) }
    ensures lines { (P.state device.new).lines ≡ (P.state device.old).lines }
    ensures synced { OnOk result (P.floor device.new ≡ moment (P.state device.new)) }
    ensures sound { OnOk result ((P.state device.new).failures ≡ (P.state device.old).failures) }
    ensures fault { OnErr result ((P.state device.old).failures < (P.state device.new).failures) }
    ensures moments { LeavesOnly (P.state device.old) (P.state device.new)
        (IsFormatting (P.state device.old).words (P.state device.old).lines first.now.role first.now.epoch) }
{
    persist(device, &[(0, 0)], &[0])?;
    write_new(device, first)?;
    persist_durably(device, &[(0, MAGIC)], &[0])
}

/// Writes everything but the magic, up to the extents: zeros, and then the superblock, the first record in its slot, and its number as the root.
fn write_new<P: Pmem>(device: &mut P, first: &Record) -> Result<(), Fault>
    requires many { MIN_LINES ≤ (P.state device.old).lines }
    requires few { (P.state device.old).lines ≤ MAX_LINES }
    ensures ok { OnOk result (Staged (P.state device.old) (P.state device.new) (new_pairs (P.state device.old).lines first.now)
        (lines_from 0 (first_extent_line (P.state device.old).lines))) }
    ensures err { OnErr result (StageFailed (P.state device.old) (P.state device.new) (new_pairs (P.state device.old).lines first.now)) }
{
    let lines = device.lines();
    let layout = first.layout;
    let room = Layout::directory_room(lines);
    let extents = Layout::first_extent_line(lines);
    let slot = LINE_WORDS * layout.slot_line(lines, first.number);
    clear_words(device, 1, LINE_WORDS * extents - 1);
    store_words(device, 1, &[layout.version(), lines, room]);
    store_words(device, slot, words_of(first).as_slice());
    store_words(device, layout.root_word(), &[first.number]);
    flush_lines(device, 0, extents);
    device.fence()
}

/// Stores zeros in `count` words, starting at `first`.
fn clear_words<P: Pmem>(device: &mut P, first: u64, count: u64)
    requires { first + count ≤ 8 * (P.state device.old).lines }
    ensures { Runs (P.state device.old) (P.state device.new) (stores (pairs_from first (replicate count 0)) (P.state device.old).words) }
{
    for i in 0..count {
        device.store(first + i, 0);
    }
}

/// The record of a new image.
pub fn first_record(role: Role, epoch: u64) -> Record
    ensures { result ≡ first_record role epoch }
{
    Record {
        layout: LAYOUT,
        number: 1,
        position: 0,
        cp: 0,
        cd: 1 + STAMP_WINDOW,
        epoch,
        role,
        gaps: ArrayVec::new(),
        floor: 0,
    }
}

//! A small image by hand, with a gap and with both kinds of versions in its last entries, brought to version 2 with crashes on the way.
ghost use Rattle.std.specs.Prelude.{◌≡◌, ◌+◌, ◌≤◌};
ghost use Rattle.model.specs.declared.image.TheConstants.{MIN_LINES};
ghost use Rattle.pmem.specs.Crash.{IsSettled};
ghost use Rattle.pmem.specs.Sim.{state_of};

use crate::{migrate, stage_of};
use kv_types::Refusal;
use model::{LINE_WORDS, Layout, MAGIC, MIN_LINES, Role, STAMP_WINDOW};
use pmem::{Crashing, Pmem, SimPmem, flush_lines, store_words};
use std::alloc::Global;
use wbl_engine::{Durable, WblEngine, inspect};

/// How many entries version 2 keeps of 512, and the line of the first.
const ENTRIES: u64 = 494;

const FIRST_ENTRY_LINE: u64 = 8;

/// The image of version 1 of `SET a 1` and `SET a 2`, which lie in two entries that version 2 does not keep. It was reopened after a crash, so that its record
/// has a gap.
fn old_image(alloc: Global) -> Result<SimPmem, Refusal> {
    let mut device = SimPmem::new(alloc, MIN_LINES)?;
    store_words(&mut device, 0, &[MAGIC, 1, MIN_LINES, 512, 3, 0, 0, 0]);
    // number, position, cp, cd, epoch, and a gap from 3 to 4,097; the role behind all gaps
    store_words(
        &mut device,
        LINE_WORDS * 4,
        &[3, 2, 4_098, 4_099 + STAMP_WINDOW, 1, 1, 3, 4_097],
    );
    store_words(&mut device, LINE_WORDS * 4 + 22, &[1]);
    store_words(
        &mut device,
        LINE_WORDS * (FIRST_ENTRY_LINE + 494),
        &[1, 2, 1, 520, 1, 1, 1, 1],
    );
    store_words(
        &mut device,
        LINE_WORDS * (FIRST_ENTRY_LINE + 511),
        &[2, 0, 2, 521, 1, 1, 1, 1],
    );
    store_words(&mut device, LINE_WORDS * 520, &[12_641]);
    store_words(&mut device, LINE_WORDS * 521, &[12_897]);
    flush_lines(&mut device, 0, 8);
    flush_lines(&mut device, FIRST_ENTRY_LINE + ENTRIES, 20);
    match device.fence() {
        Ok(()) => Ok(device),
        Err(_fault) => Err(Refusal::Fault),
    }
}

/// What a crash with these picks leaves of an image, after so many calls of a migration.
fn cut_off(alloc: Global, device: SimPmem, calls: u64, picks: &[u64]) -> SimPmem
    ensures { IsSettled (state_of result).words }
{
    let mut device = device;
    device.crash(&[]);
    device.keep_at(calls);
    let mut left = match migrate(alloc, device) {
        Ok(device) => device,
        Err((_, device)) => device,
    };
    left.crash(picks);
    left
}

/// How many of the `count` entries from `first` on have `a` with this value, made at this position.
fn count(device: &SimPmem, first: u64, count: u64, position: u64, value: u8, is_ended: bool) -> u64
    requires lines { (state_of device.now).lines ≡ MIN_LINES }
    requires within { first + count ≤ 512 }
{
    let mut found: u64 = 0;
    for i in 0..count {
        let entry = LINE_WORDS * (FIRST_ENTRY_LINE + first + i);
        let line = device.load(entry + 3);
        if device.load(entry) != 0
            && (device.load(entry + 1) != 0) == is_ended
            && device.load(entry + 2) == position
            && line < MIN_LINES
            && device.load(LINE_WORDS * line) == 97 + 256 * value as u64
        {
            found = found.saturating_add(1);
        }
    }
    found
}

/// Whether the device has the image of version 1, with a gap.
fn is_old(device: &SimPmem) -> bool {
    device.lines() == MIN_LINES
        && stage_of(device) == Ok(Layout::Version1)
        && device.load(4) == 3
        && device.load(LINE_WORDS * 4 + 5) == 1
        && count(device, ENTRIES, 18, 1, b'1', true) == 1
        && count(device, ENTRIES, 18, 2, b'2', false) == 1
}

/// Whether the device has an image of version 2 with both versions, where a crash may have left that which has ended in two places. Its record has the position
/// 2, the epoch 1, no gap, the role of a primary and the position as its floor.
fn is_new(device: &SimPmem) -> bool {
    if device.lines() != MIN_LINES {
        return false;
    }
    let root = device.load(5);
    let record = LINE_WORDS * (FIRST_ENTRY_LINE + ENTRIES + 9 * (root % 2));
    stage_of(device) == Ok(Layout::Version2)
        && device.load(record) == root
        && device.load(record + 1) == 2
        && device.load(record + 4) == 1
        && device.load(record + 5) == 0
        && device.load(record + 70) == 1
        && device.load(record + 71) == 2
        && count(device, 0, ENTRIES, 2, b'2', false) == 1
        && count(device, 0, ENTRIES, 1, b'1', true) != 0
        && count(device, 0, ENTRIES, 1, b'1', false) == 0
}

/// Whether the image is reopened after a crash as one of version 2, at position 2 and with both versions.
fn reopens(alloc: Global, device: SimPmem) -> Result<bool, Refusal> {
    let mut device = device;
    device.crash(&[]);
    match WblEngine::reopen(alloc, device, Layout::Version2, Role::Primary) {
        Ok((engine, versions)) => Ok(engine.position() == 2 && versions.counted.len() >= 2),
        Err((refusal, _)) => Err(refusal),
    }
}

/// Whether an engine reads the image as one of this layout, at position 2 and with one live version.
fn is_read(alloc: Global, device: &SimPmem, layout: Layout) -> bool {
    match inspect(alloc, device, layout) {
        Ok((current, live)) => current.layout == layout && current.position == 2 && live == 1,
        Err(_) => false,
    }
}

/// Whether a crash after so many calls of a migration, with these picks, leaves an image at this stage, which an engine reads so, and which then comes to
/// version 2, and is reopened so.
fn goes_on_from(alloc: Global, calls: u64, picks: &[u64], left: Layout) -> Result<bool, Refusal> {
    let old = old_image(alloc)?;
    if !is_old(&old) {
        return Ok(false);
    }
    let device = cut_off(alloc, old, calls, picks);
    let is_left = stage_of(&device) == Ok(left) && is_read(alloc, &device, left);
    match migrate(alloc, device) {
        Ok(device) => Ok(is_left && is_new(&device) && reopens(alloc, device)?),
        Err((refusal, _)) => Err(refusal),
    }
}

/// The record of the reopening is stored by the first 31 calls, and those with a gap fewer by the next 64. Then `a 2` is copied (by 116), counts in its new
/// place (147) and is no longer in its old one (150); `a 1` is perhaps in both (170) and then in the new one alone (174). The first mark is stored by call 175,
/// and the last by 263.
#[test]
fn migrates_from_a_crash(rt: HostRuntime) -> Result<(), Refusal> {
    for (calls, oldest, newest) in [
        (0, Layout::Version1, Layout::Version1),
        (30, Layout::Version1, Layout::Version1),
        (62, Layout::Version1, Layout::Version1),
        (94, Layout::Version1, Layout::Version1),
        (116, Layout::Version1, Layout::Version1),
        (146, Layout::Version1, Layout::Version1),
        (148, Layout::Version1, Layout::Version1),
        (170, Layout::Version1, Layout::Version1),
        (173, Layout::Version1, Layout::Version1),
        (175, Layout::Version1, Layout::Halfway),
        (220, Layout::Halfway, Layout::Halfway),
        (263, Layout::Halfway, Layout::Version2),
        (1_000, Layout::Version2, Layout::Version2),
    ] {
        assert!(rt;
            goes_on_from(rt.alloc(), calls, &[], oldest)?,
            "oldest at {calls}"
        );
        assert!(rt;
            goes_on_from(rt.alloc(), calls, &[1; 200], newest)?,
            "newest at {calls}"
        );
    }
    Ok(())
}

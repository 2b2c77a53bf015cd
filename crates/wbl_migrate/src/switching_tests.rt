//! A small image by hand: wherever a crash comes in the last steps, what it leaves goes on to version 2.
ghost use Rattle.std.specs.Prelude.{◌≡◌, ◌+◌, ◌*◌, ◌≤◌, IfOk, length};
ghost use Rattle.model.specs.declared.image.TheConstants.{MIN_LINES};
ghost use Rattle.pmem.specs.Sim.{state_of};

use crate::{VERSION_WORD, go_on, switch};
use arrayvec::ArrayVec;
use kv_types::Refusal;
use model::{LINE_WORDS, Layout, MAGIC, MIN_LINES, Record, Role, STAMP_WINDOW};
use pmem::{Crashing, Pmem, SimPmem, flush_lines, store_words};
use std::alloc::Global;
use wbl_record::words_of;

fn current() -> Record {
    Record {
        layout: Layout::Version1,
        number: 3,
        position: 7,
        cp: 9,
        cd: 10 + STAMP_WINDOW,
        epoch: 2,
        role: Role::Standby,
        gaps: ArrayVec::new(),
        floor: 0,
    }
}

/// The image of version 1 that holds the string `a` with the value `1`.
fn old_image(alloc: Global) -> Result<SimPmem, Refusal>
    ensures { IfOk result (λ device. (state_of device).lines ≡ MIN_LINES) }
{
    let mut device = SimPmem::new(alloc, MIN_LINES)?;
    store_words(&mut device, 0, &[MAGIC, 1, MIN_LINES, 512, 3, 0, 0, 0]);
    store_words(&mut device, LINE_WORDS * 4, words_of(&current()).as_slice());
    store_words(&mut device, LINE_WORDS * 8, &[9, 0, 7, 520, 1, 1, 1, 1]);
    store_words(&mut device, LINE_WORDS * 520, &[12641]);
    flush_lines(&mut device, 0, 9);
    flush_lines(&mut device, 520, 1);
    match device.fence() {
        Ok(()) => Ok(device),
        Err(_fault) => Err(Refusal::Fault),
    }
}

/// Whether the words from `first` on have these values.
fn has_words(device: &SimPmem, first: u64, values: &[u64]) -> bool
    requires { first + length values.now ≤ 8 * (state_of device.now).lines }
{
    for (i, value) in values.iter().enumerate() {
        if device.load(first + i as u64) != *value {
            return false;
        }
    }
    true
}

/// Whether the device holds the image of version 2, where the record 4 stands behind the 494 entries.
fn is_new(device: &SimPmem) -> bool
    requires { (state_of device.now).lines ≡ MIN_LINES }
{
    let record = LINE_WORDS * (8 + 494);
    has_words(device, 0, &[MAGIC, 2, MIN_LINES, 512, 3, 4, 0, 0])
        && has_words(device, record, &[4, 7, 9, 4106, 2])
        && has_words(device, record + 5, &[0; 65])
        && has_words(device, record + 70, &[2, 7])
        && has_words(device, LINE_WORDS * 8, &[9, 0, 7, 520, 1, 1, 1, 1])
        && has_words(device, LINE_WORDS * 520, &[12641])
}

/// Whether a crash after this many calls of the device, with these picks, leaves an image of this version, which then comes to version 2.
fn goes_on_from(alloc: Global, calls: u64, picks: &[u64], left: u64) -> Result<bool, Refusal> {
    let mut device = old_image(alloc)?;
    device.keep_at(calls);
    switch(&mut device, &current())?;
    device.crash(picks);
    let version = device.load(VERSION_WORD);
    if version == 1 {
        switch(&mut device, &current())?;
    } else if version == Layout::Halfway.version() {
        go_on(&mut device, &current())?;
    }
    Ok(version == left && is_new(&device))
}

/// The first mark is stored by the first call and certain from the third on. The body of the record has the next 82 calls, its root 3, and the last mark 3.
#[test]
fn goes_on_from_a_crash(rt: HostRuntime) -> Result<(), Refusal> {
    for (calls, oldest, newest) in [
        (0, 1, 1),
        (1, 1, 3),
        (3, 3, 3),
        (40, 3, 3),
        (85, 3, 3),
        (86, 3, 3),
        (88, 3, 3),
        (89, 3, 2),
        (91, 2, 2),
    ] {
        assert!(rt;
            goes_on_from(rt.alloc(), calls, &[], oldest)?,
            "oldest at {calls}"
        );
        assert!(rt;
            goes_on_from(rt.alloc(), calls, &[1; 80], newest)?,
            "newest at {calls}"
        );
    }
    Ok(())
}

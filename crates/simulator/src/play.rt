//! Playing a script over two simulated devices, one event at a time.
ghost use Rattle.std.specs.Prelude.{◌≡◌, ◌%◌, ◌<◌, ◌≤◌, length, map, vec_len, IfOk, slice_index};
ghost use Rattle.std.specs.List.{range_with_len};
ghost use Rattle.world.specs.Pair.{HasWorld};

use crate::error::SimulatorError;
use crate::image::words_of;
use crate::options::Options;
use crate::report::{write_event, write_kept};
use crate::restoring::{Keep, Restore, Restored, device_with, start_again, write_outcome};
use crate::script::{Failure, Script};
use kv_types::Refusal;
use machine::{Event, Node};
use mv_keyspace::{Keyspace, ListKeyspace, MvKeyspace};
use pmem::{Crashing, Pmem, SimPmem};
use std::alloc::{AllocError, Global};
use std::hash::RandomState;
use std::io::Write;
use wbl_engine::WblEngine;
use world::{EarlyEnd, History, Pair, Stepper, Trace, run};

/// What was played.
#[derive(Drop)]
pub struct Played {
    /// Where it ended before its last event, if it did.
    pub ended: Option<EarlyEnd>,
    /// What the events gave.
    pub history: History,
    /// The primary's device.
    pub primary: SimPmem,
    /// The standby's device.
    pub standby: SimPmem,
}

/// Plays the events over two new devices, and prints each that was reached before the next one happens. Where the run ends early, the crashes that
/// are left of them still happen to the devices. `Memory` if memory was refused to the simulator, or to one of its devices, which then does not know
/// all that a crash may leave; `Write` if an event could not be printed.
pub fn play<W: Write>(
    alloc: Global,
    out: &mut W,
    options: &Options,
    script: &Script,
    hash_builder: RandomState,
) -> Result<Played, SimulatorError> {
    let (primary, standby) = new_devices(alloc, options, script.failures.as_slice())?;
    let schedule = &script.schedule;
    let mut played = if options.whole {
        play_whole(alloc, out, primary, standby, script, hash_builder)?
    } else if options.list {
        play_over::<W, ListKeyspace>(alloc, out, primary, standby, script, hash_builder)?
    } else {
        play_over::<W, MvKeyspace>(alloc, out, primary, standby, script, hash_builder)?
    };
    if played.primary.starved() || played.standby.starved() {
        return Err(SimulatorError::Memory);
    }
    let reached = match played.ended {
        None => schedule.events().len(),
        Some(EarlyEnd::AtFormatting(_)) => 0,
        Some(EarlyEnd::AtEvent(number, _)) => number,
    };
    if let Some(unplayed) = schedule.events().get(reached..) {
        crash_devices(alloc, &mut played, unplayed)?;
    }
    if let Some(restore) = script.restore
        && played.ended.is_none()
    {
        let kept = words_kept(alloc, options, script, restore.kept, hash_builder)?;
        put_back(alloc, out, &mut played, restore, kept, hash_builder)?;
    }
    Ok(played)
}

/// The words of the image that is kept: the same events always leave the same, so they happen once more, over new devices.
fn words_kept(
    alloc: Global,
    options: &Options,
    script: &Script,
    keep: Keep,
    hash_builder: RandomState,
) -> Result<Vec<u64>, SimulatorError> {
    let (primary, standby) = new_devices(alloc, options, script.failures.as_slice())?;
    let devices = vec![in alloc; primary, standby]?;
    let events = script.schedule.events();
    let events = events.get(..keep.after).unwrap_or(events);
    let trace = run(alloc, devices, events, hash_builder);
    // (they all happened before)
    if trace.ended.is_some() {
        return Err(SimulatorError::Memory);
    }
    let (primary, standby) = first_two(trace.devices);
    Ok(match keep.node {
        Node::Primary => words_of(alloc, &primary)?,
        Node::Standby => words_of(alloc, &standby)?,
    })
}

/// Puts an image that was kept in the place of its node's own, starts both nodes again, and prints what came of it.
fn put_back<W: Write>(
    alloc: Global,
    out: &mut W,
    played: &mut Played,
    restore: Restore,
    kept: Vec<u64>,
    hash_builder: RandomState,
) -> Result<(), SimulatorError> {
    let (primary, standby) = match restore.kept.node {
        Node::Primary => (kept, words_of(alloc, &played.standby)?),
        Node::Standby => (words_of(alloc, &played.primary)?, kept),
    };
    let Restored {
        outcome,
        primary,
        standby,
    } = start_again(alloc, primary.as_slice(), standby.as_slice(), hash_builder)?;
    write_outcome(out, restore.line, outcome)?;
    played.primary = device_with(alloc, primary.as_slice())?;
    played.standby = device_with(alloc, standby.as_slice())?;
    Ok(())
}

/// The primary's device and the standby's, which fail as told.
pub fn new_devices(
    alloc: Global,
    options: &Options,
    failures: &[Failure],
) -> Result<(SimPmem, SimPmem), AllocError> {
    let mut primary = new_device(alloc, options.primary_lines)?;
    let mut standby = new_device(alloc, options.standby_lines)?;
    for failure in failures {
        match failure.node {
            Node::Primary => primary.fail_at(failure.fence),
            Node::Standby => standby.fail_at(failure.fence),
        }
    }
    Ok((primary, standby))
}

/// Formats the devices, and plays the events over them, with keyspaces of this kind. Room for calls is made by the turns.
fn play_over<W: Write, K: Keyspace + Drop>(
    alloc: Global,
    out: &mut W,
    primary: SimPmem,
    standby: SimPmem,
    script: &Script,
    hash_builder: RandomState,
) -> Result<Played, SimulatorError> {
    match Pair::<WblEngine<SimPmem>, K>::open(alloc, primary, standby, 0, hash_builder) {
        Ok((pair, history)) => {
            let mut pair = pair;
            let mut history = history;
            let ended = play_each(out, &mut pair, &mut history, script);
            let (primary, standby) = pair.into_devices();
            Ok(Played {
                ended: ended?,
                history,
                primary,
                standby,
            })
        }
        Err((refusal, primary, standby)) => Ok(unplayed(alloc, refusal, primary, standby)),
    }
}

/// Plays all events by one call, and prints those that were reached after it.
fn play_whole<W: Write>(
    alloc: Global,
    out: &mut W,
    primary: SimPmem,
    standby: SimPmem,
    script: &Script,
    hash_builder: RandomState,
) -> Result<Played, SimulatorError> {
    let schedule = &script.schedule;
    let devices = vec![in alloc; primary, standby]?;
    let Trace {
        history,
        done,
        ended,
        devices,
    } = run(alloc, devices, schedule.events(), hash_builder);
    let mut keeps = script.keeps.as_slice();
    for (number, (did, line)) in done.iter().zip(schedule.lines()).enumerate() {
        keeps = write_kept(out, keeps, number)?;
        write_event(out, number, *line, *did)?;
    }
    if !matches!(ended, Some(EarlyEnd::AtFormatting(_))) {
        let _ = write_kept(out, keeps, done.len())?;
    }
    let (primary, standby) = first_two(devices);
    Ok(Played {
        ended,
        history,
        primary,
        standby,
    })
}

/// The first two devices.
fn first_two(devices: Vec<SimPmem>) -> (SimPmem, SimPmem)
    requires { 2 ≤ vec_len devices }
{
    let mut devices = devices;
    let primary = devices.remove(0);
    let standby = devices.remove(0);
    (primary, standby)
}

/// The outcome where the devices could not be formatted.
fn unplayed(alloc: Global, refusal: Refusal, primary: SimPmem, standby: SimPmem) -> Played {
    Played {
        ended: Some(EarlyEnd::AtFormatting(refusal)),
        history: History::none(alloc),
        primary,
        standby,
    }
}

/// Lets the events happen, and prints each before the next one happens.
fn play_each<W: Write, S: Stepper>(
    out: &mut W,
    stepper: &mut S,
    history: &mut History,
    script: &Script,
) -> Result<Option<EarlyEnd>, SimulatorError>
    requires world { HasWorld (S.parts stepper.old history.old) }
{
    let schedule = &script.schedule;
    let mut keeps = script.keeps.as_slice();
    let events = schedule.events().iter().zip(schedule.lines());
    for (number, (event, line)) in events.enumerate() {
        keeps = write_kept(out, keeps, number)?;
        match stepper.step(history, event) {
            Ok(did) => write_event(out, number, *line, did)?,
            Err(refusal) => return Ok(Some(EarlyEnd::AtEvent(number, refusal))),
        }
    }
    let _ = write_kept(out, keeps, schedule.events().len())?;
    Ok(None)
}

/// Crashes the devices that these events crash, one after another.
fn crash_devices(alloc: Global, played: &mut Played, events: &[Event]) -> Result<(), AllocError> {
    for event in events {
        if let Event::Crash(node, _, _, picks) = event {
            match node {
                Node::Primary => crash_device(alloc, &mut played.primary, picks.as_slice())?,
                Node::Standby => crash_device(alloc, &mut played.standby, picks.as_slice())?,
            }
        }
    }
    Ok(())
}

/// A new device with `lines` lines. Its words are counted in 64 bits, so 2^61 lines or more are refused.
fn new_device(alloc: Global, lines: u64) -> Result<SimPmem, AllocError> {
    if lines >= 1 << 61 {
        return Err(AllocError);
    }
    SimPmem::new(alloc, lines)
}

/// Crashes a device: a word with several candidates gets the one that the next pick selects. The picks start over when they run out.
fn crash_device(alloc: Global, device: &mut SimPmem, picks: &[u64]) -> Result<(), AllocError> {
    let picks = repeated(alloc, picks, 8 * device.lines())?;
    device.crash(picks.as_slice());
    Ok(())
}

/// `count` picks, starting over from the first when they run out; none if `picks` is empty.
fn repeated(alloc: Global, picks: &[u64], count: u64) -> Result<Vec<u64>, AllocError>
    ensures { IfOk result (λ all. 0 < length picks.now
        → all.items ≡ map (λ i. slice_index picks.now (i % length picks.now)) (range_with_len 0 count)) }
{
    let mut all = Vec::new(alloc);
    if !picks.is_empty() {
        for i in 0..count {
            all.push(picks[i as usize % picks.len()])?;
        }
    }
    Ok(all)
}

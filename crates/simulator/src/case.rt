//! One history over two new devices, looked at after each event.
ghost use Rattle.world.specs.Pair.{HasWorld};

use crate::breach::Breach;
use crate::drawing::Drawing;
use crate::error::SimulatorError;
use crate::found::Found;
use crate::lookout::Lookout;
use crate::options::Options;
use crate::play::new_devices;
use crate::restored::Restoring;
use crate::schedule::MOST_EVENTS;
use crate::script::Failure;
use crate::shown::ShowingPmem;
use crate::tally::Tally;
use crate::teller::Teller;
use crate::witness::Witness;
use kv_types::Refusal;
use machine::{Event, Node};
use mv_keyspace::MvKeyspace;
use pmem::{Crashing, SimPmem};
use std::alloc::{AllocError, Global};
use std::hash::RandomState;
use std::io::Write;
use wbl_engine::WblEngine;
use world::{History, Pair, Stepper};

/// A history: which fences are to fail, but for those that an event asks to, the image that is put back at its end, if one is, and the events.
#[derive(Drop)]
pub struct Case<'a> {
    pub failures: &'a [Failure],
    pub restoring: Option<Restoring>,
    pub source: Source<'a>,
}

/// Where the events of a history come from.
#[derive(Drop)]
pub enum Source<'a> {
    Drawn(Drawing),
    /// Those of a list that are left.
    Given(&'a [Event]),
}

impl Source<'_> {
    /// The next event, or `None` where none is left, after what happened so far, where this node has stopped, if one has.
    fn next(
        &mut self,
        history: &History,
        stopped: Option<Node>,
    ) -> Result<Option<Event>, AllocError> {
        match self {
            Source::Drawn(drawing) => drawing.next(history, stopped),
            Source::Given(events) => {
                let [first, rest @ ..] = *events else {
                    return Ok(None);
                };
                *events = rest;
                Ok(Some(first.try_clone()?))
            }
        }
    }

    /// A fence failed unasked and ended the run: what comes are crashes of the devices alone.
    fn end(&mut self) -> Result<(), AllocError> {
        match self {
            Source::Drawn(drawing) => drawing.end(),
            Source::Given(_) => Ok(()),
        }
    }
}

/// The device of each node, which shows its words.
type Device = ShowingPmem<SimPmem>;

/// Plays a history over a new pair, looks at it after each event, and tells of it. What was counted is added.
pub fn play_case<W: Write>(
    alloc: Global,
    options: &Options,
    case: Case<'_>,
    teller: Teller<'_, W>,
    hash_builder: RandomState,
    tally: &mut Tally,
) -> Result<(), Found> {
    let Case {
        failures,
        restoring,
        source,
    } = case;
    let mut source = source;
    let (primary, standby) = new_devices(alloc, options, failures)?;
    let (first, shown_first) = ShowingPmem::new(alloc, primary)?;
    let (second, shown_second) = ShowingPmem::new(alloc, standby)?;
    let witness = Witness::new(alloc, shown_first, shown_second, !failures.is_empty());
    let mut teller = teller;
    teller.failures(failures)?;
    let mut lookout = Lookout::new(witness, restoring, teller);
    match Pair::<WblEngine<Device>, MvKeyspace>::open(alloc, first, second, 0, hash_builder) {
        Ok((pair, history)) => {
            let mut pair = pair;
            let mut history = history;
            let ended = play_through(&mut pair, &mut history, &mut source, &mut lookout);
            let devices = pair.into_devices();
            let left = see_end(ended, devices, &mut source, &history, &mut lookout);
            let left = lookout.see_restored(alloc, left, hash_builder);
            tally.add(lookout.tally());
            left
        }
        Err((refusal, _first, _second)) => Err(found_in(refusal)),
    }
}

/// Lets the events happen, and looks at the pair after each. Returns whether a fence that failed ended the run.
fn play_through<S: Stepper, W: Write>(
    stepper: &mut S,
    history: &mut History,
    source: &mut Source<'_>,
    lookout: &mut Lookout<'_, W>,
) -> Result<bool, Found>
    requires world { HasWorld (S.parts stepper.old history.old) }
{
    lookout.begin()?;
    for number in 0..MOST_EVENTS {
        lookout.keep(number)?;
        let Some(event) = source.next(history, lookout.stopped())? else {
            return Ok(false);
        };
        lookout.tell(&event)?;
        match stepper.step(history, &event) {
            Ok(did) => lookout.see(&event, did, history)?,
            Err(refusal) => {
                lookout.see_refusal(&event, refusal)?;
                return Ok(true);
            }
        }
    }
    Ok(false)
}

/// Looks at what is left once a run is over: where a fence ended it, after crashes of the devices. Returns whether it ended well.
fn see_end<W: Write>(
    ended: Result<bool, Found>,
    devices: (Device, Device),
    source: &mut Source<'_>,
    history: &History,
    lookout: &mut Lookout<'_, W>,
) -> Result<bool, Found> {
    if ended? {
        source.end()?;
        crash_devices(devices, source, history, lookout)?;
        lookout.see_left()?;
        return Ok(false);
    }
    Ok(true)
}

/// Crashes the devices as the events say that are left.
fn crash_devices<W: Write>(
    devices: (Device, Device),
    source: &mut Source<'_>,
    history: &History,
    lookout: &mut Lookout<'_, W>,
) -> Result<(), Found> {
    let (mut first, mut second) = devices;
    for _event in 0..MOST_EVENTS {
        let Some(event) = source.next(history, None)? else {
            return Ok(());
        };
        match &event {
            Event::Crash(Node::Primary, _, _, picks) => first.crash(picks.as_slice()),
            Event::Crash(Node::Standby, _, _, picks) => second.crash(picks.as_slice()),
            _ => {}
        }
        lookout.tell(&event)?;
        lookout.count_event();
    }
    Ok(())
}

/// What it means that a run ended so.
pub fn found_in(refusal: Refusal) -> Found {
    match refusal {
        Refusal::Memory => Found::from(SimulatorError::Memory),
        _ => Found::Breach(Breach::Ended),
    }
}

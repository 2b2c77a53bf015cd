//! The command line.
use crate::error::SimulatorError;
use crate::number::read_number;
use std::io::ErrorKind;
use std::rt::Env;
use std::{env, io};

/// The lines of each device if the command line does not say otherwise.
const USUAL_LINES: u64 = 4_096;

/// What the command line asks for.
#[derive(Clone, Copy, Debug, PartialEq, Eq)]
pub struct Options {
    /// The lines of the primary's device.
    pub primary_lines: u64,
    /// The lines of the standby's device.
    pub standby_lines: u64,
    /// Whether both nodes keep their records in a sorted list, and not in an ordered map.
    pub list: bool,
    /// Whether all events are played by one call, and printed after it. The records are kept in an ordered map then.
    pub whole: bool,
    /// Whether the records of each image are printed.
    pub map: bool,
    /// Whether the words of each image are printed.
    pub images: bool,
    /// Whether the nodes are looked at after each event, and what is seen is printed.
    pub trace: bool,
    /// Whether it is printed which program this is, and nothing is played.
    pub version: bool,
    /// Whether histories are drawn, and how many.
    pub explore: Option<Exploration>,
}

/// Histories that are drawn.
#[derive(Clone, Copy, Debug, PartialEq, Eq)]
pub struct Exploration {
    pub seed: u64,
    /// How many events are to happen at least.
    pub events: u64,
}

/// What the words of an option are that were not read yet.
#[derive(Clone, Copy, Debug, PartialEq, Eq)]
enum Awaited {
    Nothing,
    Lines,
    Seed,
    Events(u64),
}

/// Reads the command line. `Usage` if it is not understood.
pub fn read_options(rt: &(impl Env + Alloc)) -> Result<Options, SimulatorError> {
    let words = env::args(rt).map_err(unread)?;
    let mut options = Options {
        primary_lines: USUAL_LINES,
        standby_lines: USUAL_LINES,
        list: false,
        whole: false,
        map: false,
        images: false,
        trace: false,
        version: false,
        explore: None,
    };
    let mut awaited = Awaited::Nothing;
    for word in words.skip(1) {
        awaited = take_word(&mut options, awaited, word.as_str())?;
    }
    if awaited != Awaited::Nothing || (options.list && options.whole) {
        return Err(SimulatorError::Usage);
    }
    Ok(options)
}

/// Takes one word, and returns what the next one is to be.
fn take_word(
    options: &mut Options,
    awaited: Awaited,
    word: &str,
) -> Result<Awaited, SimulatorError> {
    match awaited {
        Awaited::Lines => take_lines(options, word)?,
        Awaited::Seed => return Ok(Awaited::Events(take_number(word)?)),
        Awaited::Events(seed) => {
            let events = take_number(word)?;
            options.explore = Some(Exploration { seed, events });
        }
        Awaited::Nothing => return take_option(options, word),
    }
    Ok(Awaited::Nothing)
}

/// Takes an option, and returns what has to follow it.
fn take_option(options: &mut Options, word: &str) -> Result<Awaited, SimulatorError> {
    match word {
        "--lines" => Ok(Awaited::Lines),
        "--explore" => Ok(Awaited::Seed),
        _ => {
            take_switch(options, word)?;
            Ok(Awaited::Nothing)
        }
    }
}

fn take_number(word: &str) -> Result<u64, SimulatorError> {
    read_number(word.as_bytes()).ok_or(SimulatorError::Usage)
}

/// The error for a command line that cannot be read: an argument that is not text is not understood.
fn unread(error: io::Error) -> SimulatorError {
    if error.kind() == ErrorKind::OutOfMemory {
        SimulatorError::Memory
    } else {
        SimulatorError::Usage
    }
}

fn take_switch(options: &mut Options, word: &str) -> Result<(), SimulatorError> {
    match word {
        "--list" => options.list = true,
        "--whole" => options.whole = true,
        "--map" => options.map = true,
        "--images" => options.images = true,
        "--trace" => options.trace = true,
        "--version" | "-V" => options.version = true,
        _ => return Err(SimulatorError::Usage),
    }
    Ok(())
}

/// Takes the two numbers after `--lines`.
fn take_lines(options: &mut Options, word: &str) -> Result<(), SimulatorError> {
    let (primary, standby) = word.split_once(',').ok_or(SimulatorError::Usage)?;
    options.primary_lines = read_number(primary.as_bytes()).ok_or(SimulatorError::Usage)?;
    options.standby_lines = read_number(standby.as_bytes()).ok_or(SimulatorError::Usage)?;
    Ok(())
}

//! What is to be played: failures of fences, events, and an image that is kept and restored.
use crate::cause::{Cause, LineError};
use crate::error::SimulatorError;
use crate::event_text::read_event;
use crate::line_words::{LineWords, text_of};
use crate::restoring::{Keep, Restore, last_of};
use crate::schedule::Schedule;
use machine::Node;
use std::alloc::Global;

/// A fence that fails.
#[derive(Clone, Copy, Debug, PartialEq, Eq)]
pub struct Failure {
    pub node: Node,
    /// Which fence of the node, counted from 1; with 0 none fails.
    pub fence: u64,
}

/// What is to be played.
#[derive(Drop)]
pub struct Script {
    /// Before the first event.
    pub failures: Vec<Failure>,
    pub schedule: Schedule,
    /// The images that are kept, in the order of their lines.
    pub keeps: Vec<Keep>,
    /// Behind the last event.
    pub restore: Option<Restore>,
}

/// Reads all lines. `Line` gives the first that is not understood, and its cause.
pub fn read_script(alloc: Global, text: &[u8]) -> Result<Script, SimulatorError> {
    let mut script = Script {
        failures: Vec::new(alloc),
        schedule: Schedule::new(alloc),
        keeps: Vec::new(alloc),
        restore: None,
    };
    let mut number: u64 = 0;
    for line in text.split(|byte| *byte == b'\n') {
        number = number.saturating_add(1);
        if let Err(error) = add_line(alloc, &mut script, line, number) {
            return Err(SimulatorError::at_line(number, error));
        }
    }
    Ok(script)
}

/// Adds what a line says. An empty line and a line that begins with `#` say nothing.
fn add_line(alloc: Global, script: &mut Script, line: &[u8], number: u64) -> Result<(), LineError> {
    if line.starts_with(b"#") {
        return Ok(());
    }
    let mut words = LineWords::new(line);
    let Some(word) = words.next() else {
        return Ok(());
    };
    if script.restore.is_some() {
        return Err(LineError::Bad(Cause::BehindRestore));
    }
    match text_of(word) {
        "fail" => add_failure(script, &mut words),
        "keep" => add_keep(script, &mut words, number),
        "restore" => add_restore(script, &mut words, number),
        "repeat" => add_repeated(alloc, script, &mut words, number),
        name => add_events(alloc, script, 1, name, &mut words, number),
    }
}

/// Adds the event of these words, the first of which is how often.
fn add_repeated(
    alloc: Global,
    script: &mut Script,
    words: &mut LineWords<'_>,
    number: u64,
) -> Result<(), LineError> {
    let times = words.number()?;
    let name = text_of(words.word()?);
    add_events(alloc, script, times, name, words, number)
}

/// Adds the event with this name and the words that follow it, `times` times.
fn add_events(
    alloc: Global,
    script: &mut Script,
    times: u64,
    name: &str,
    words: &mut LineWords<'_>,
    number: u64,
) -> Result<(), LineError> {
    let event = read_event(alloc, name, words)?;
    script.schedule.add(&event, times, number)
}

fn add_failure(script: &mut Script, words: &mut LineWords<'_>) -> Result<(), LineError> {
    let node = words.node()?;
    let fence = words.number()?;
    words.end()?;
    if !script.schedule.events().is_empty() {
        return Err(LineError::Bad(Cause::FailAfterEvent));
    }
    script.failures.push(Failure { node, fence })?;
    Ok(())
}

/// Adds that the image of a node is kept.
fn add_keep(script: &mut Script, words: &mut LineWords<'_>, number: u64) -> Result<(), LineError> {
    let node = words.node()?;
    words.end()?;
    script.keeps.push(Keep {
        node,
        after: script.schedule.events().len(),
        line: number,
    })?;
    Ok(())
}

/// Adds that the image of a node that was kept last is put in the place of its own.
fn add_restore(
    script: &mut Script,
    words: &mut LineWords<'_>,
    number: u64,
) -> Result<(), LineError> {
    let node = words.node()?;
    words.end()?;
    let Some(kept) = last_of(script.keeps.as_slice(), node) else {
        return Err(LineError::Bad(Cause::NothingKept));
    };
    script.restore = Some(Restore { kept, line: number });
    Ok(())
}

//! Printing an event, and the outcome of a run.
use crate::error::SimulatorError;
use crate::node_report::write_nodes;
use crate::options::Options;
use crate::play::Played;
use crate::quoted::Quoted;
use crate::restoring::Keep;
use crate::wire_report::{write_acknowledgements, write_frames};
use kv_types::{Item, Refusal, Reply};
use model::Call;
use resp_codec::write_reply;
use std::alloc::{AllocError, Global};
use std::io;
use std::io::Write;
use world::EarlyEnd;

/// Prints the calls, the released bytes, the frames, the acknowledgements, what both nodes hold and how the run of the events of these lines ended.
pub fn report<W: Write>(
    alloc: Global,
    out: &mut W,
    options: &Options,
    lines: &[u64],
    played: &Played,
) -> Result<(), SimulatorError> {
    let history = &played.history;
    write_calls(alloc, out, history.calls())?;
    write_released(out, history.transcript.released.as_slice())?;
    write_frames(alloc, out, history.frames())?;
    write_acknowledgements(alloc, out, history.acknowledgements())?;
    write_nodes(alloc, out, options, &played.primary, &played.standby)?;
    write_end(out, lines, played.ended)?;
    Ok(())
}

/// An event that was reached, with its line.
pub fn write_event<W: Write>(out: &mut W, number: usize, line: u64, did: bool) -> io::Result<()> {
    let outcome = if did { "done" } else { "not enabled" };
    writeln!(out, "event {number}, line {line}: {outcome}")
}

/// The images, in the order of their lines, that are kept behind so many events or fewer. Answers those that are left.
pub fn write_kept<'a, W: Write>(
    out: &mut W,
    keeps: &'a [Keep],
    events: usize,
) -> io::Result<&'a [Keep]> {
    for (place, keep) in keeps.iter().enumerate() {
        if events < keep.after {
            return Ok(keeps.get(place..).unwrap_or(&[]));
        }
        let line = keep.line;
        writeln!(out, "keep, line {line}: done")?;
    }
    Ok(&[])
}

fn write_calls<W: Write>(alloc: Global, out: &mut W, calls: &[Call]) -> Result<(), SimulatorError> {
    for (number, call) in calls.iter().enumerate() {
        write_call(alloc, out, number, call)?;
    }
    Ok(())
}

/// The call of this number in the list.
pub fn write_call<W: Write>(
    alloc: Global,
    out: &mut W,
    number: usize,
    call: &Call,
) -> Result<(), SimulatorError> {
    let connection = call.connection;
    write!(out, "call {number}: connection {connection},")?;
    write_item(out, &call.item)?;
    let text = text_of(alloc, &call.reply)?;
    let reply = Quoted(text.as_slice());
    writeln!(out, " -> {reply}")?;
    Ok(())
}

/// The bytes that were released to each connection.
fn write_released<W: Write>(out: &mut W, released: &[Vec<u8>]) -> io::Result<()> {
    for (number, bytes) in released.iter().enumerate() {
        write_bytes(out, number, bytes.as_slice())?;
    }
    Ok(())
}

/// Bytes that were released to the connection of this number.
pub fn write_bytes<W: Write>(out: &mut W, number: usize, bytes: &[u8]) -> io::Result<()> {
    let quoted = Quoted(bytes);
    writeln!(out, "connection {number}: released {quoted}")
}

fn write_item<W: Write>(out: &mut W, item: &Item) -> io::Result<()> {
    match item {
        Item::Request(request) => {
            for word in request.words() {
                let quoted = Quoted(word.as_slice());
                write!(out, " {quoted}")?;
            }
            Ok(())
        }
        Item::Fault(_) => write!(out, " fault"),
    }
}

/// The bytes of a reply.
pub fn text_of(alloc: Global, reply: &Reply) -> Result<Vec<u8>, AllocError> {
    let mut text = Vec::new(alloc);
    write_reply(reply, &mut text)?;
    Ok(text)
}

/// How the run ended.
fn write_end<W: Write>(out: &mut W, lines: &[u64], ended: Option<EarlyEnd>) -> io::Result<()> {
    match ended {
        None => {
            let events = lines.len();
            writeln!(out, "ended: after all {events} events")
        }
        Some(EarlyEnd::AtFormatting(refusal)) => {
            write!(out, "ended: at formatting: ")?;
            write_refusal(out, refusal)
        }
        Some(EarlyEnd::AtEvent(number, refusal)) => {
            let line = lines.get(number).copied().unwrap_or(0);
            write!(out, "ended: at event {number}, line {line}: ")?;
            write_refusal(out, refusal)
        }
    }
}

/// A refusal, by its number and its text.
pub fn write_refusal<W: Write>(out: &mut W, refusal: Refusal) -> io::Result<()> {
    let number = refusal.number();
    writeln!(out, "refusal {number}: {refusal}")
}

//! Printing what passed between the nodes.
use crate::error::SimulatorError;
use std::alloc::Global;
use std::io;
use std::io::Write;
use stream_codec::{Decoder, Message};

/// The frames that end above all that were sent before them: of a group's frame one, however often it was sent.
pub fn write_frames<W: Write>(
    alloc: Global,
    out: &mut W,
    frames: &[Vec<u8>],
) -> Result<(), SimulatorError> {
    let mut number: u64 = 0;
    let mut last = 0;
    for bytes in frames {
        let messages = read_messages(alloc, bytes.as_slice())?;
        let after = end_of(messages.as_slice());
        if last < after {
            write_messages(
                alloc,
                out,
                "frame",
                number,
                messages.as_slice(),
                bytes.as_slice(),
            )?;
            number = number.saturating_add(1);
            last = after;
        }
    }
    Ok(())
}

/// The acknowledgements, in the order in which they were made.
pub fn write_acknowledgements<W: Write>(
    alloc: Global,
    out: &mut W,
    acknowledgements: &[Vec<u8>],
) -> Result<(), SimulatorError> {
    let mut number: u64 = 0;
    for bytes in acknowledgements {
        let messages = read_messages(alloc, bytes.as_slice())?;
        write_messages(
            alloc,
            out,
            "acknowledgement",
            number,
            messages.as_slice(),
            bytes.as_slice(),
        )?;
        number = number.saturating_add(1);
    }
    Ok(())
}

/// The position after the changes of the last frame among these messages; 0 if there is none.
fn end_of(messages: &[Message]) -> u64 {
    match messages.last() {
        Some(Message::Group(frame)) => frame.after,
        _ => 0,
    }
}

/// What was sent in one piece, by this name and number: what it tells, and its bytes.
fn write_messages<W: Write>(
    alloc: Global,
    out: &mut W,
    name: &str,
    number: u64,
    messages: &[Message],
    bytes: &[u8],
) -> Result<(), SimulatorError> {
    write!(out, "{name} {number}: ")?;
    for message in messages {
        write_message(out, message)?;
    }
    let digits = hex::encode(alloc, bytes)?;
    writeln!(out, "bytes {digits}")?;
    Ok(())
}

/// The messages that the bytes hold.
fn read_messages(alloc: Global, bytes: &[u8]) -> Result<Vec<Message>, SimulatorError> {
    Decoder::new(alloc)
        .feed(bytes)
        .map_err(|_refusal| SimulatorError::Memory)
}

/// What a message tells.
fn write_message<W: Write>(out: &mut W, message: &Message) -> io::Result<()> {
    match message {
        Message::Group(frame) => {
            let epoch = frame.epoch;
            let before = frame.before;
            let after = frame.after;
            let changes = frame.changes.len();
            write!(
                out,
                "epoch {epoch}, from {before} to {after}, changes {changes}, "
            )
        }
        Message::Ack(ack) => {
            let epoch = ack.epoch();
            let position = ack.position();
            write!(out, "epoch {epoch}, position {position}, ")
        }
        Message::CopyWanted(wanted) => {
            let epoch = wanted.epoch;
            write!(out, "epoch {epoch}, wants a copy, ")
        }
        Message::CopyPart(part) => {
            let epoch = part.epoch;
            let position = part.position;
            let number = part.number;
            let puts = part.puts.len();
            write!(
                out,
                "epoch {epoch}, position {position}, part {number}, puts {puts}, "
            )
        }
        Message::CopyEnd(end) => {
            let epoch = end.epoch;
            let position = end.position;
            let parts = end.parts;
            write!(out, "epoch {epoch}, position {position}, parts {parts}, ")
        }
    }
}

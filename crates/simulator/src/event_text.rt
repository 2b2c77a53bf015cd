//! Events as text: read from words, and printed as they are read.
ghost use Rattle.std.specs.Prelude.{◌≡◌, IfOk};
ghost use Rattle.hex.specs.Hex.{decode_of};

use crate::cause::{Cause, LineError};
use crate::crash_words::{name_of_cut, read_crash};
use crate::error::SimulatorError;
use crate::line_words::LineWords;
use crate::node::name_of;
use crate::quoted::Quoted;
use crate::spelling::spelled;
use bytes::Bytes;
use hex::FromHexError;
use machine::{Cut, Event, Node};
use std::alloc::{AllocError, Global};
use std::io;
use std::io::Write;

/// The event with this name and the words that follow it.
pub fn read_event(
    alloc: Global,
    name: &str,
    words: &mut LineWords<'_>,
) -> Result<Event, LineError> {
    let event = event_named(alloc, name, words)?;
    words.end()?;
    Ok(event)
}

/// The event with this name, and its words.
fn event_named(alloc: Global, name: &str, words: &mut LineWords<'_>) -> Result<Event, LineError> {
    match name {
        "feed" => read_request(alloc, words),
        "feed-bytes" => read_piece(alloc, words),
        "crash" => read_crash(alloc, words),
        _ => match event_alone(name) {
            Some(event) => Ok(event),
            None => Ok(event_of_words(name, words)?),
        },
    }
}

/// The event whose name takes no more words.
fn event_alone(name: &str) -> Option<Event> {
    match name {
        "enter" => Some(Event::Enter),
        "close-group" => Some(Event::CloseGroup),
        "commit" => Some(Event::Commit),
        "raise-local" => Some(Event::RaiseLocal),
        "hand" => Some(Event::Hand),
        "free" => Some(Event::Free),
        "accept-freed" => Some(Event::AcceptFreed),
        "clear-gap" => Some(Event::ClearGap),
        "open-link" => Some(Event::OpenLink),
        "send" => Some(Event::Send),
        "apply" => Some(Event::Apply),
        "raise-remote" => Some(Event::RaiseRemote),
        "fence" => Some(Event::Fence),
        "promote" => Some(Event::Promote),
        _ => None,
    }
}

/// The event whose name takes numbers, marks and nodes. A frame comes whole, where no number says in how many bytes at a time.
fn event_of_words(name: &str, words: &mut LineWords<'_>) -> Result<Event, Cause> {
    match name {
        "offer" => Ok(Event::Offer(words.number()?)),
        "turn" => Ok(Event::Turn(words.number()?)),
        "deliver" => Ok(Event::Deliver(words.number()?, words.number_or(0)?)),
        "ack-delivered" => Ok(Event::AckDelivered(words.number()?)),
        "hold" => Ok(Event::Hold(words.number()?)),
        "read" => Ok(Event::Read(words.number()?, words.mark()?)),
        "release" => Ok(Event::Release(words.number()?)),
        "write" => Ok(Event::Write(words.number()?, words.number()?)),
        "leave" => Ok(Event::Leave(words.number()?)),
        "fail-fence" => Ok(Event::FailFence(words.node()?, words.number()?)),
        "reopen" => Ok(Event::Reopen(words.node()?)),
        _ => Err(Cause::UnknownEvent),
    }
}

/// A connection, and the words of a request.
fn read_request(alloc: Global, words: &mut LineWords<'_>) -> Result<Event, LineError> {
    let connection = words.number()?;
    let mut request = Vec::new(alloc);
    request.push(Bytes::copy_from_slice(alloc, words.word()?)?)?;
    for word in words {
        request.push(Bytes::copy_from_slice(alloc, word)?)?;
    }
    Ok(Event::Feed(connection, spelled(alloc, request)?))
}

/// A connection, and bytes as hex digits.
fn read_piece(alloc: Global, words: &mut LineWords<'_>) -> Result<Event, LineError> {
    let connection = words.number()?;
    let digits = words.next().unwrap_or(&[]);
    Ok(Event::Feed(connection, read_hex(alloc, digits)?))
}

/// The bytes of these hex digits.
fn read_hex(alloc: Global, digits: &[u8]) -> Result<Bytes, LineError>
    ensures { IfOk result (λ bytes. decode_of digits.now ≡ Ok bytes) }
{
    match hex::decode(alloc, digits) {
        Ok(bytes) => Ok(Bytes::from_vec(bytes)?),
        Err(FromHexError::OutOfMemory) => Err(LineError::Memory),
        Err(_) => Err(LineError::Bad(Cause::NotHex)),
    }
}

/// Prints an event, in a line, so that it is read as it is. Bytes stand in hex digits, and before them, in a comment, as they are.
pub fn write_words_of<W: Write>(
    alloc: Global,
    out: &mut W,
    event: &Event,
) -> Result<(), SimulatorError> {
    match event {
        Event::Feed(connection, piece) => write_piece(alloc, out, *connection, piece),
        Event::Crash(node, cut, after, picks) => {
            Ok(write_crash(out, *node, *cut, *after, picks.as_slice())?)
        }
        _ => write_words(alloc, out, event),
    }
}

fn write_piece<W: Write>(
    alloc: Global,
    out: &mut W,
    connection: u64,
    piece: &Bytes,
) -> Result<(), SimulatorError> {
    let quoted = Quoted(piece.as_slice());
    let digits = hex::encode(alloc, piece.as_slice())?;
    writeln!(out, "# {quoted}")?;
    writeln!(out, "feed-bytes {connection} {digits}")?;
    Ok(())
}

fn write_crash<W: Write>(
    out: &mut W,
    node: Node,
    cut: Cut,
    after: u64,
    picks: &[u64],
) -> io::Result<()> {
    let node = name_of(node);
    write!(out, "crash {node}")?;
    if let Some(name) = name_of_cut(cut) {
        write!(out, " {name} {after}")?;
    }
    for pick in picks {
        write!(out, " {pick}")?;
    }
    writeln!(out)
}

/// An event of numbers, marks and nodes: a name in a script is that of the machine, with a hyphen between its words, in place of capitals.
fn write_words<W: Write>(alloc: Global, out: &mut W, event: &Event) -> Result<(), SimulatorError> {
    let mut text = Vec::new(alloc);
    write!(text, "{event:?}")?;
    let mut is_in_word = false;
    for byte in text.as_slice() {
        write_byte(out, *byte, is_in_word)?;
        is_in_word = byte.is_ascii_alphabetic();
    }
    writeln!(out)?;
    Ok(())
}

/// One byte of the text of an event, which stands behind a letter or not.
fn write_byte<W: Write>(out: &mut W, byte: u8, is_in_word: bool) -> io::Result<()> {
    match byte {
        b'A'..=b'Z' if is_in_word => out.write_all(&[b'-', byte.to_ascii_lowercase()]),
        b'(' | b',' => out.write_all(b" "),
        b')' | b' ' => Ok(()),
        _ => out.write_all(&[byte.to_ascii_lowercase()]),
    }
}

//! One connection over a reader and a writer, served by a pair of new nodes.
ghost use Rattle.std.specs.Prelude.{IfErr, IfOk, OnOk};
ghost use Rattle.std.specs.Io.KnownBytes.{Appends, Consumes, IsAtEnd};
ghost use Rattle.server.specs.Served.{EachHasReply, IsEarly, IsServed, IsServedUpTo, asked_by, replies_in};

use crate::answering::are_all_answered;
use crate::conversation::converse;
use crate::pair::start_pair;
use bytes::Bytes;
use images::ServeError;
use kv_types::Refusal;
use std::alloc::Global;
use std::io::{self, ErrorKind, Read, Write};
use std::net::{Net, TcpListener, TcpStream};
use std::random::RandomSource;
use std::sync::Wait;
use std::thread::Threads;
use std::time::Clock;

/// Reads one connection's bytes to their end, has a pair of new nodes serve them over sockets, and writes what came back.
///
/// # Errors
///
/// Where it is not `Write`, nothing was written. `Broken` where fewer replies came than the bytes have requests.
pub fn serve<
    N: RandomSource
        + Threads
        + Wait
        + Clock
        + Net<Listener = TcpListener, Stream = TcpStream>
        + Copy
        + Send
        + 'static,
    R: Read,
    W: Write,
>(rt: &N, alloc: Global, reader: &mut R, writer: &mut W) -> Result<(), ServeError>
    ensures served { OnOk result (IsServed (R.remaining reader.old) (R.remaining reader.new) (W.contents writer.old) (W.contents writer.new)) }
    ensures early { IfErr result (λ error. IsServedUpTo error (W.contents writer.old) (W.contents writer.new)) }
{
    let input = read_input(alloc, reader)?;
    let replies = answer(rt, alloc, input)?;
    write_replies(writer, replies.as_slice())
}

/// What a pair of new nodes answers to these bytes, to each request a reply.
fn answer<
    N: RandomSource
        + Threads
        + Wait
        + Clock
        + Net<Listener = TcpListener, Stream = TcpStream>
        + Copy
        + Send
        + 'static,
>(rt: &N, alloc: Global, input: Vec<u8>) -> Result<Bytes, ServeError>
    ensures early { IfErr result IsEarly }
    ensures all { IfOk result (λ replies. EachHasReply (asked_by input.items) (replies_in replies)) }
{
    let input = Bytes::from_vec(input)?;
    let client = start_pair(rt, alloc)?;
    let replies = Bytes::from_vec(converse(rt, alloc, &client, input.clone()?)?)?;
    if are_all_answered(alloc, input, replies.clone()?)? {
        Ok(replies)
    } else {
        Err(ServeError::Broken)
    }
}

/// The bytes of a reader up to its end.
fn read_input<R: Read>(alloc: Global, reader: &mut R) -> Result<Vec<u8>, ServeError>
    ensures whole { OnOk result (IsAtEnd (R.remaining reader.new)) }
    ensures bytes { IfOk result (λ input. Consumes (R.remaining reader.old) (R.remaining reader.new) input.items) }
    ensures early { IfErr result IsEarly }
{
    let mut input = Vec::new(alloc);
    match reader.read_to_end(&mut input) {
        Ok(_) => Ok(input),
        Err(error) if error.kind() == ErrorKind::OutOfMemory => {
            Err(ServeError::Refused(Refusal::Memory))
        }
        Err(error) => Err(ServeError::Read(error)),
    }
}

/// Writes and flushes the replies.
fn write_replies<W: Write>(writer: &mut W, replies: &[u8]) -> Result<(), ServeError>
    ensures whole { OnOk result (Appends (W.contents writer.old) (W.contents writer.new) replies.now) }
    ensures cause { IfErr result (λ error. ¬ IsEarly error) }
{
    match write_all(writer, replies) {
        Ok(()) => Ok(()),
        Err(error) => Err(ServeError::Write(error)),
    }
}

fn write_all<W: Write>(writer: &mut W, bytes: &[u8]) -> io::Result<()>
    ensures { OnOk result (Appends (W.contents writer.old) (W.contents writer.new) bytes.now) }
{
    writer.write_all(bytes)?;
    writer.flush()?;
    Ok(())
}

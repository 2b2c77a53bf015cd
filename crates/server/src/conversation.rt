//! What goes to the pair's socket, and what comes from it.
ghost use Rattle.std.specs.Prelude.{◌≡◌, ◌↔◌, OnOk, IfErr, IfOk};
ghost use Rattle.std.specs.Io.KnownBytes.{Consumes, IsAtEnd};
ghost use Rattle.std.specs.IoError.{error_kind};
ghost use Rattle.kv_types.specs.declared.refusal.Refusal.TheVariants.{Memory};
ghost use Rattle.images.specs.declared.serve_error.ServeError.TheVariants.{Refused};
ghost use Rattle.server.specs.Served.{IsEarly};

use crate::client::Client;
use bytes::Bytes;
use images::ServeError;
use kv_types::Refusal;
use std::alloc::Global;
use std::io::{ErrorKind, Read, Write};
use std::net::Shutdown;
use std::sync::Arc;
use std::thread::{JoinHandle, Threads};
use std::{io, thread};

/// Sends these bytes, and returns what comes back until the connection ends. A thread of its own sends, since the nodes read no further while nobody takes
/// their replies.
///
/// # Errors
///
/// `Refused` where a node has stopped, or memory or a thread was refused; `Broken` where the link between the nodes ended, or the other side let the
/// connection fall; `Socket` where the socket failed.
pub fn converse<N: Threads>(
    rt: &N,
    alloc: Global,
    client: &Arc<Client>,
    input: Bytes,
) -> Result<Vec<u8>, ServeError>
    ensures early { IfErr result IsEarly }
{
    let sender = start_sender(rt, Arc::try_clone(client)?, input)?;
    let received = receive(alloc, &mut &client.socket);
    // nobody reads any more: a write that waits is to end
    client.hang_up();
    let sent = sender.join(rt);
    match client.why_stopped() {
        Some(why) => Err(why.error()),
        None => whole(sent, received),
    }
}

/// What was received, if all could be sent.
fn whole(sent: io::Result<()>, received: Result<Vec<u8>, ServeError>) -> Result<Vec<u8>, ServeError>
    requires { IfErr received IsEarly }
    ensures { IfErr result IsEarly }
{
    match sent {
        Ok(()) => received,
        Err(error) => Err(ServeError::Socket(error)),
    }
}

/// Starts the thread that sends these bytes.
fn start_sender<N: Threads>(
    rt: &N,
    client: Arc<Client>,
    input: Bytes,
) -> Result<JoinHandle<io::Result<()>>, Refusal> {
    match thread::spawn(rt, move || send(&client, input.as_slice())) {
        Ok(sender) => Ok(sender),
        Err(_) => Err(Refusal::Memory),
    }
}

/// Sends these bytes, and then says that nothing more comes.
fn send(client: &Arc<Client>, input: &[u8]) -> io::Result<()> {
    let sent = send_all(&mut &client.socket, input);
    let _ = client.socket.shutdown(Shutdown::Write);
    sent
}

/// Writes these bytes to a socket. Where the other side has ended the connection, as after QUIT or a fault, the rest is let go.
fn send_all<O: Write>(to: &mut O, bytes: &[u8]) -> io::Result<()> {
    match to.write_all(bytes) {
        Err(error) if is_end(error.kind()) => Ok(()),
        other => other,
    }
}

/// What comes from a socket until the other side ends it.
fn receive<I: Read>(alloc: Global, from: &mut I) -> Result<Vec<u8>, ServeError>
    ensures whole { OnOk result (IsAtEnd (I.remaining from.new)) }
    ensures bytes { IfOk result (λ received. Consumes (I.remaining from.old) (I.remaining from.new) received.items) }
    ensures early { IfErr result IsEarly }
{
    let mut received = Vec::new(alloc);
    match from.read_to_end(&mut received) {
        Ok(_) => Ok(received),
        Err(error) => Err(of_reading(error)),
    }
}

/// Why nothing more could be received: for want of memory here, or the other side let the connection fall, or the socket failed.
fn of_reading(error: io::Error) -> ServeError
    ensures memory { (result ≡ Refused Memory) ↔ (error_kind error ≡ ErrorKind.OutOfMemory) }
    ensures early { IsEarly result }
{
    match error.kind() {
        ErrorKind::OutOfMemory => ServeError::Refused(Refusal::Memory),
        ErrorKind::ConnectionReset => ServeError::Broken,
        _ => ServeError::Socket(error),
    }
}

fn is_end(kind: ErrorKind) -> bool {
    kind == ErrorKind::BrokenPipe || kind == ErrorKind::ConnectionReset
}

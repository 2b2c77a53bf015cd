//! Listening at an address, with the cause where that cannot be done.
use crate::bound::BoundSocket;
use images::Failure;
use std::alloc::Global;
use std::io::{self, ErrorKind, Write};
use std::net::{Net, TcpListener, TcpStream, ToSocketAddrs};
use std::thread;
use std::time::{Clock, Duration};

/// How often an address in use is tried again, and after how many milliseconds: a process that was killed holds it for a moment.
const TRIES: u32 = 20;

const PAUSE_MILLISECONDS: u64 = 100;

/// Binds this address, at which nobody can connect yet. Where another holds it, or its name does not resolve, that is waited for up to two seconds.
///
/// # Errors
///
/// `CannotListen` where nobody can be listened to there: the cause is told in a line.
pub fn bind<N: Clock + Net<Listener = TcpListener, Stream = TcpStream>, E: Write>(
    rt: &N,
    alloc: Global,
    address: &str,
    errors: &mut E,
) -> Result<BoundSocket, Failure> {
    match bind_patiently(rt, address) {
        Ok(bound) => Ok(bound),
        Err(error) => Err(refused(alloc, address, &error, errors)),
    }
}

/// Listens at this address, which was bound. Where another listens there, which had bound it too, that is waited for as well.
///
/// # Errors
///
/// As at `bind`.
pub fn listen<C: Clock, E: Write>(
    rt: &C,
    alloc: Global,
    bound: BoundSocket,
    address: &str,
    errors: &mut E,
) -> Result<TcpListener, Failure> {
    match listen_patiently(rt, &bound) {
        Ok(()) => Ok(bound.into_listener()),
        Err(error) => Err(refused(alloc, address, &error, errors)),
    }
}

/// Tells why nobody can be listened to at this address, and answers whether that may pass. Where memory is refused the line is let go.
fn refused<E: Write>(alloc: Global, address: &str, error: &io::Error, errors: &mut E) -> Failure {
    let mut line = Vec::new(alloc);
    let cause = cause_of(error);
    if writeln!(line, "cannot listen at {address}: {cause}").is_ok() {
        let _ = errors.write_all(&line);
    }
    Failure::CannotListen {
        may_pass: may_pass(error),
    }
}

/// Listens, again and again where another does.
fn listen_patiently<C: Clock>(rt: &C, bound: &BoundSocket) -> io::Result<()> {
    for _ in 0..TRIES {
        match bound.listen() {
            Err(error) if error.kind() == ErrorKind::AddrInUse => {
                thread::sleep(rt, Duration::from_millis(PAUSE_MILLISECONDS));
            }
            listened => return listened,
        }
    }
    bound.listen()
}

/// Binds this address, again and again where it is in use or its name does not resolve.
fn bind_patiently<N: Clock + Net<Listener = TcpListener, Stream = TcpStream>>(
    rt: &N,
    address: &str,
) -> io::Result<BoundSocket> {
    for _ in 0..TRIES {
        match bind_first(rt, address) {
            Err(error) if error.kind() == ErrorKind::AddrInUse || is_of_name(&error) => {
                thread::sleep(rt, Duration::from_millis(PAUSE_MILLISECONDS));
            }
            bound => return bound,
        }
    }
    bind_first(rt, address)
}

/// Binds the first address of this text that can be.
fn bind_first<N: Net<Listener = TcpListener, Stream = TcpStream>>(
    rt: &N,
    address: &str,
) -> io::Result<BoundSocket> {
    let mut fault = io::Error::from(ErrorKind::InvalidInput);
    for found in address.to_socket_addrs(rt)? {
        match BoundSocket::bind(found) {
            Ok(bound) => return Ok(bound),
            Err(error) => fault = error,
        }
    }
    Err(fault)
}

/// Why nobody can be listened to at an address that was refused so.
fn cause_of(error: &io::Error) -> &'static str {
    match error.kind() {
        ErrorKind::AddrInUse => "address in use",
        ErrorKind::AddrNotAvailable => "no address of this machine",
        ErrorKind::PermissionDenied => "this user may not listen there",
        _ if is_of_name(error) => "the name of the host does not resolve",
        _ => "the system refuses it",
    }
}

/// Whether an error is of the name of a host. One of the system has a number.
fn is_of_name(error: &io::Error) -> bool {
    error.raw_os_error().is_none()
}

/// Whether the same may be done another time: the address is free by then, its name resolves, or there are descriptors and memory again.
fn may_pass(error: &io::Error) -> bool {
    match error.kind() {
        ErrorKind::AddrNotAvailable | ErrorKind::PermissionDenied => false,
        _ => true,
    }
}

//! Sockets whose readiness the poll reports.
use mio::unix::SourceFd;
use mio::{Interest, Registry, Token};
use pipes::Seat;
use std::net::TcpStream;
use std::os::fd::AsRawFd;

/// The system refused to report a socket. Only `register` makes one, so nobody breaks a connection off for this without having asked.
#[derive(Drop)]
pub(crate) struct NotRegistered {
    _private: (),
}

/// Has the poll report a socket by its place.
///
/// # Errors
///
/// Only `NotRegistered`.
pub(crate) fn register(
    registry: &Registry,
    stream: &TcpStream,
    place: &Seat,
) -> Result<(), NotRegistered> {
    let descriptor = stream.as_raw_fd();
    let registered = registry.register(
        &mut SourceFd(&descriptor),
        Token(place.number()),
        Interest::READABLE | Interest::WRITABLE,
    );
    match registered {
        Ok(()) => Ok(()),
        Err(_) => Err(NotRegistered { _private: () }),
    }
}

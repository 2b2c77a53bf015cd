//! A socket that is bound to its address before anybody can connect there.
ghost use Rattle.std.specs.Prelude.{◌+◌, ◌≤◌, length, pos, ◌≤ℤ◌, ◌↔◌, IsOk};
ghost use Rattle.libc.specs.Net.{SockOption};

use libc::net as c;
use os::FromRawFd;
use std::io;
use std::net::{SocketAddr, SocketAddrV4, SocketAddrV6, TcpListener};
use std::os::fd::{AsRawFd, OwnedFd};

/// As many connections that were not accepted yet as the system allows: it cuts this to its own limit. std has room for 128; where more come at once before
/// the acceptor has its turn, each further one waits a second.
const BACKLOG: i32 = i32::MAX;

/// After how many seconds without a byte a peer's system is asked whether the peer is still there, how many seconds later again where it does not answer, and
/// how often in all. A peer that has closed its socket is denied by its system, a minute after it did where that is Linux.
const PROBE_AFTER_SECONDS: i32 = 60;

const PROBE_SECONDS: i32 = 20;

const PROBES: i32 = 3;

/// How many bytes C's `sockaddr_in` and `sockaddr_in6` have.
const V4_BYTES: u32 = 16;

const V6_BYTES: u32 = 28;

/// A socket that is bound to an address, at which nobody listens yet: who connects there is refused, and nobody else can have it.
#[derive(Drop)]
pub struct BoundSocket {
    socket: OwnedFd,
}

impl BoundSocket {
    /// One that has this address. A connection that was there before and is not quite over does not keep it.
    ///
    /// # Errors
    ///
    /// `AddrInUse` where another has it, else what the system says.
    pub fn bind(address: SocketAddr) -> io::Result<BoundSocket> {
        let socket = new_socket(address)?;
        let fd = socket.as_raw_fd();
        set(fd, c::SOL_SOCKET, c::SO_REUSEADDR, 1)?;
        let (raw, len) = encoded(address);
        check(unsafe { c::bind(fd, &raw, len) })?;
        Ok(BoundSocket { socket })
    }

    /// Has the system ask, on each connection that is taken there, whether its peer is still there when nothing comes: one whose peer is gone fails then.
    ///
    /// # Errors
    ///
    /// What the system says. It asks later then, or never.
    pub fn probe_peers(&self) -> io::Result<()> {
        let fd = self.socket.as_raw_fd();
        set(fd, c::IPPROTO_TCP, c::TCP_KEEPIDLE, PROBE_AFTER_SECONDS)?;
        set(fd, c::IPPROTO_TCP, c::TCP_KEEPINTVL, PROBE_SECONDS)?;
        set(fd, c::IPPROTO_TCP, c::TCP_KEEPCNT, PROBES)?;
        set(fd, c::SOL_SOCKET, c::SO_KEEPALIVE, 1)
    }

    /// Has the system take connections there from now on.
    ///
    /// # Errors
    ///
    /// What the system says: `AddrInUse` where another came to listen there, which had bound the same address.
    pub fn listen(&self) -> io::Result<()> {
        check(c::listen(self.socket.as_raw_fd(), BACKLOG))
    }

    /// The listener, of one that listens.
    pub fn into_listener(self) -> TcpListener {
        TcpListener::from(self.socket)
    }
}

/// Sets an option of a socket. Connections that a listener takes have it too.
fn set(fd: i32, level: i32, name: i32, value: i32) -> io::Result<()>
    requires { SockOption level name }
{
    let mut bytes = [0u8; 16];
    bytes[..4].copy_from_slice(&value.to_ne_bytes());
    check(unsafe { c::setsockopt(fd, level, name, &bytes, 4) })
}

/// The error of the call that has just answered this, if it is negative.
fn check(status: i32) -> io::Result<()>
    ensures { IsOk result ↔ (pos 0 ≤ℤ status) }
{
    if status < 0 {
        Err(io::Error::from_raw_os_error(os::errno()))
    } else {
        Ok(())
    }
}

fn new_socket(address: SocketAddr) -> io::Result<OwnedFd> {
    let kind = c::SOCK_STREAM | c::SOCK_CLOEXEC;
    let fd = match address {
        SocketAddr::V4(_) => unsafe { c::socket(c::AF_INET, kind, 0) },
        SocketAddr::V6(_) => unsafe { c::socket(c::AF_INET6, kind, 0) },
    };
    check(fd)?;
    Ok(unsafe { OwnedFd::from_raw_fd(fd) })
}

/// The bytes of an address as C has them, and how many they are.
fn encoded(address: SocketAddr) -> ([u8; c::_SS_SIZE], u32)
    ensures { result.1 ≤ 128 }
{
    match address {
        SocketAddr::V4(address) => (encoded_v4(address), V4_BYTES),
        SocketAddr::V6(address) => (encoded_v6(address), V6_BYTES),
    }
}

fn encoded_v4(address: SocketAddrV4) -> [u8; c::_SS_SIZE] {
    let mut raw = family_and_port(c::AF_INET as u16, address.port());
    put(&mut raw, 4, &address.ip().octets());
    raw
}

fn encoded_v6(address: SocketAddrV6) -> [u8; c::_SS_SIZE] {
    let mut raw = family_and_port(c::AF_INET6 as u16, address.port());
    put(&mut raw, 4, &address.flowinfo().to_ne_bytes());
    put(&mut raw, 8, &address.ip().octets());
    put(&mut raw, 24, &address.scope_id().to_ne_bytes());
    raw
}

fn family_and_port(family: u16, port: u16) -> [u8; c::_SS_SIZE] {
    let mut raw = [0u8; c::_SS_SIZE];
    put(&mut raw, 0, &family.to_ne_bytes());
    put(&mut raw, 2, &port.to_be_bytes());
    raw
}

/// Puts these bytes over those that begin at an index.
fn put(raw: &mut [u8; c::_SS_SIZE], at: usize, bytes: &[u8])
    requires { at + length bytes.now ≤ 128 }
{
    raw[at..at + bytes.len()].copy_from_slice(bytes);
}

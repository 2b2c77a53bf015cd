//! A connection on which the other side said who it is.
ghost use Rattle.std.specs.Prelude.{◌≡◌, IfOk};

use std::alloc::Global;
use std::io;
use std::net::TcpStream;
use std::sync::Arc;
use stream_codec::Decoder;

/// Who is at the other end of a primary's link.
#[derive(Clone, Copy, Debug, PartialEq, Eq)]
pub(crate) enum Peer {
    /// A standby at this position.
    Standby(u64),
    /// A newcomer, which wants a copy.
    Newcomer,
}

impl Peer {
    /// Whether it is a standby.
    pub(crate) fn follows(self) -> bool {
        match self {
            Peer::Standby(_) => true,
            Peer::Newcomer => false,
        }
    }
}

/// A connection on which the other side said who it is.
#[derive(Drop)]
pub(crate) struct Opened {
    pub(crate) peer: Peer,
    pub(crate) stream: Arc<TcpStream>,
    /// The same for the receiver.
    pub(crate) theirs: Arc<TcpStream>,
    /// It holds what came behind that.
    pub(crate) decoder: Decoder,
}

/// The connection for two threads. An acknowledgement may come at any time from now on.
pub(crate) fn share(
    alloc: Global,
    stream: TcpStream,
    decoder: Decoder,
    peer: Peer,
) -> io::Result<Opened>
    ensures peer { IfOk result (λ opened. opened.peer ≡ peer) }
    ensures decoder { IfOk result (λ opened. opened.decoder ≡ decoder) }
{
    stream.set_read_timeout(None)?;
    let stream = Arc::new(alloc, stream)?;
    let theirs = Arc::try_clone(&stream)?;
    Ok(Opened {
        peer,
        stream,
        theirs,
        decoder,
    })
}

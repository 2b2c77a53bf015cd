//! The only client of a pair of nodes that this program starts for itself.
ghost use Rattle.std.specs.Prelude.{◌≡◌};
ghost use Rattle.server.specs.Served.{IsEarly, ended_by};

use images::ServeError;
use kv_types::Refusal;
use std::alloc::Global;
use std::net::{Net, Shutdown, SocketAddr, TcpStream};
use std::sync::{Arc, OnceLock};

/// Why the pair serves no longer.
#[derive(Clone, Copy)]
pub enum PairEnd {
    /// A step of a node was refused so.
    Refused(Refusal),
    /// The link between the nodes ended, or a listener failed: a socket did, or memory, a thread or a descriptor was refused to the other side.
    Broken,
}

impl PairEnd {
    /// The error that tells of it.
    pub fn error(self) -> ServeError
        ensures error { result ≡ ended_by self }
        ensures early { IsEarly result }
    {
        match self {
            PairEnd::Refused(refusal) => ServeError::Refused(refusal),
            PairEnd::Broken => ServeError::Broken,
        }
    }
}

/// The client's end of its connection, as the threads share it, and why the pair serves no longer, if it does not.
#[derive(Drop)]
pub struct Client {
    /// Its socket.
    pub socket: TcpStream,
    stopped: OnceLock<PairEnd>,
}

impl Client {
    ghost use Rattle.std.specs.Prelude.{IfErr};
    ghost use Rattle.server.specs.Served.{IsEarly};

    /// One that is connected to this address.
    pub fn connect<N: Net<Stream = TcpStream>>(
        net: &N,
        alloc: Global,
        address: SocketAddr,
    ) -> Result<Arc<Client>, ServeError>
        ensures { IfErr result IsEarly }
    {
        match TcpStream::connect(net, address) {
            Ok(socket) => Ok(Arc::new(alloc, Client::over(socket))?),
            Err(error) => Err(ServeError::Socket(error)),
        }
    }

    fn over(socket: TcpStream) -> Client {
        Client {
            socket,
            stopped: OnceLock::new(),
        }
    }

    /// Notes why the pair serves no longer, if nobody did, and ends the connection.
    pub fn stop(&self, why: PairEnd) {
        let _ = self.stopped.try_set(why);
        self.hang_up();
    }

    /// Ends the connection, so that whoever waits for its socket goes on.
    pub fn hang_up(&self) {
        let _ = self.socket.shutdown(Shutdown::Both);
    }

    /// Why the pair serves no longer, if somebody noted it.
    pub fn why_stopped(&self) -> Option<PairEnd> {
        match self.stopped.get() {
            Some(why) => Some(*why),
            None => None,
        }
    }
}

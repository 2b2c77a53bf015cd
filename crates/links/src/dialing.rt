//! Connecting to the standby.
ghost use Rattle.std.specs.Prelude.{◌≡◌, ◌⊎◌, ◌↔◌, Some, None, pos};
ghost use Rattle.std.specs.IoError.{raw_os_error};
ghost use Rattle.node_log.specs.declared.log.Lost.TheVariants.{NoDescriptor, Unresolved};

use kv_types::Refusal;
use node_log::Lost;
use std::io::{self, ErrorKind};
use std::net::{Net, TcpStream};
use std::time::Duration;

/// How long the standby may take to say where it is, and to take some of what is written, in seconds.
const PATIENCE_SECONDS: u64 = 5;

/// The system's number of an error for want of memory.
const ENOMEM: i32 = 12;

/// The same where the system, or this process, has no descriptor left.
const ENFILE: i32 = 23;

const EMFILE: i32 = 24;

/// Connects to the standby. Neither side is waited for without end.
pub(crate) fn dial<R: Net<Stream = TcpStream>>(rt: &R, address: &String) -> io::Result<TcpStream> {
    let stream = TcpStream::connect(rt, address.as_str())?;
    stream.set_nodelay(true)?;
    stream.set_read_timeout(Some(Duration::from_secs(PATIENCE_SECONDS)))?;
    stream.set_write_timeout(Some(Duration::from_secs(PATIENCE_SECONDS)))?;
    Ok(stream)
}

/// Why no connection came up, of one that did not.
pub(crate) fn why_not(dialed: &io::Result<TcpStream>) -> Lost {
    match dialed {
        Ok(_) => Lost::Ended,
        Err(error) => cause_of(error),
    }
}

/// Why no connection to a host and a port came up that failed so. An error of the resolver's own has no number of the system.
fn cause_of(error: &io::Error) -> Lost
    ensures descriptor { (result ≡ NoDescriptor) ↔ ((raw_os_error error.now ≡ Some (pos 23)) ⊎ (raw_os_error error.now ≡ Some (pos 24))) }
    ensures name { (result ≡ Unresolved) ↔ (raw_os_error error.now ≡ None) }
{
    match error.raw_os_error() {
        Some(EMFILE | ENFILE) => Lost::NoDescriptor,
        Some(ENOMEM) => Lost::Refused(Refusal::Memory),
        Some(_) => Lost::Unreachable,
        None => Lost::Unresolved,
    }
}

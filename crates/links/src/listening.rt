//! Connections that a listener refuses.
ghost use Rattle.std.specs.Prelude.{◌≡◌, ◌⊎◌, ◌↔◌, IsTrue, Some, pos};
ghost use Rattle.std.specs.IoError.{raw_os_error};

use std::io;

/// The descriptor is closed.
const EBADF: i32 = 9;

/// The socket does not listen.
const EINVAL: i32 = 22;

/// The descriptor is no socket.
const ENOTSOCK: i32 = 88;

/// The socket is of a kind that takes no connections.
const EOPNOTSUPP: i32 = 95;

/// Whether a listener that refused a connection so takes none ever after, by the system's number of the error: its descriptor is closed, or is no
/// socket that listens. Any other error is of that one connection, or of descriptors and memory, which there may be again.
pub fn is_lasting(error: &io::Error) -> bool
    ensures { IsTrue result ↔ ((raw_os_error error.now ≡ Some (pos 9)) ⊎ (raw_os_error error.now ≡ Some (pos 22)) ⊎ (raw_os_error error.now ≡ Some (pos 88)) ⊎ (raw_os_error error.now ≡ Some (pos 95))) }
{
    match error.raw_os_error() {
        Some(EBADF | EINVAL | ENOTSOCK | EOPNOTSUPP) => true,
        _ => false,
    }
}

//! For how many clients the limit of open files has room.
ghost use Rattle.std.specs.Prelude.{◌≡◌};
ghost use Rattle.descriptors.specs.Limits.{room_within};

use libc::types::rlimit;
use libc::{RLIMIT_NOFILE, getrlimit};

/// How many descriptors no client gets: those of the standard streams, the image, the listener and its next client, the link, the resolver of its address, and the
/// polls and wakers of the drivers, which are some fifteen together, and as many again, as a process may be started with some open.
const KEPT: u64 = 32;

/// The limit where the system tells none, as most shells set it.
const USUAL_LIMIT: u64 = 1_024;

/// How many clients' sockets may be open at once, so that the node's own descriptors are there whenever it wants them.
#[derive(Clone, Copy, Debug, PartialEq, Eq)]
pub struct Room {
    /// How many files, sockets among them, the process may have open.
    pub limit: u64,
    /// For how many clients that is enough.
    pub clients: u64,
}

/// The room that this process has now for clients, who are at most so many. Where it is short of descriptors there is still room for one client.
pub fn room_for_clients(most: u64) -> Room
    ensures { result.clients ≡ room_within most result.limit }
{
    room_under(limit_of_files(), most)
}

/// The room under this limit of open files.
pub fn room_under(limit: u64, most: u64) -> Room
    ensures limit { result.limit ≡ limit }
    ensures clients { result.clients ≡ room_within most limit }
{
    Room {
        limit,
        clients: limit.saturating_sub(KEPT).max(1).min(most),
    }
}

/// How many files this process may have open now.
fn limit_of_files() -> u64 {
    let mut limits = rlimit {
        rlim_cur: 0,
        rlim_max: 0,
    };
    if getrlimit(RLIMIT_NOFILE, &mut limits) == 0 {
        limits.rlim_cur
    } else {
        USUAL_LIMIT
    }
}

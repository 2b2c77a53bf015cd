//! Sessions: the transaction of each connection, and the keys that it watches.
#![tactic(auto)]

mod act;
mod error;
mod laws;
mod limits;
mod session;
mod sessions;
mod verb;
mod watch;
mod watchers;
mod watches;

pub use act::Act;
pub use error::SessionError;
pub use laws::{a_key_that_is_not_modified_stays, a_modified_key_stops_exec};
pub use limits::MAX_QUEUED_REQUESTS;
pub use sessions::{SessionNo, Sessions};
pub use verb::Verb;
pub use watch::Watch;

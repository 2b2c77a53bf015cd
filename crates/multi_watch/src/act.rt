//! What is to be done for a request.
ghost use Rattle.std.specs.Prelude.{◌≡◌, codes};
ghost use Rattle.multi_watch.specs.Admission.{act_now, Answer, ok_reply};

use bytes::Bytes;
use kv_types::{Reply, Request};

/// What is to be done for a request.
#[derive(Drop)]
pub enum Act {
    /// The reply is given, and the keyspace is not looked at.
    Answer(Reply),
    /// The request is run at once.
    Run(Request),
    /// The requests are run in order, and the array of their replies is given.
    RunAll {
        requests: Vec<Request>,
        /// Empty, with room for the reply of each.
        replies: Vec<Reply>,
    },
}

impl Act {
    /// The answer `+OK`. It takes no memory.
    pub(crate) fn ok() -> Act
        ensures { act_now result ≡ Answer ok_reply }
    {
        Act::Answer(Reply::Simple(Bytes::from_static(b"OK")))
    }

    /// The answer `+QUEUED`. It takes no memory.
    pub(crate) fn queued() -> Act
        ensures { act_now result ≡ Answer (Reply.Simple (codes "QUEUED")) }
    {
        Act::Answer(Reply::Simple(Bytes::from_static(b"QUEUED")))
    }
}

//! Why a session refuses a request.
ghost use Rattle.std.specs.Prelude.{◌≡◌};
ghost use Rattle.multi_watch.specs.Error.{error_text};
ghost use Rattle.multi_watch.specs.Admission.{act_now, Answer};

use crate::act::Act;
use bytes::Bytes;
use kv_types::Reply;

/// Why a session refuses a request.
#[derive(Clone, Copy, Debug, PartialEq, Eq)]
pub enum SessionError {
    /// MULTI in a transaction.
    NestedMulti,
    /// EXEC outside a transaction.
    ExecOutside,
    /// DISCARD outside a transaction.
    DiscardOutside,
    /// WATCH in a transaction.
    WatchInside,
    /// As many requests wait in the transaction as may.
    TooLong,
    /// EXEC of a transaction in which a request was refused.
    Aborted,
}

impl SessionError {
    /// What stands between the `-` and the line end of the reply.
    pub fn text(self) -> &'static [u8]
        ensures { result.now ≡ error_text self }
    {
        match self {
            SessionError::NestedMulti => b"ERR MULTI calls can not be nested",
            SessionError::ExecOutside => b"ERR EXEC without MULTI",
            SessionError::DiscardOutside => b"ERR DISCARD without MULTI",
            SessionError::WatchInside => b"ERR WATCH inside MULTI is not allowed",
            SessionError::TooLong => b"ERR transaction is too long",
            SessionError::Aborted => b"EXECABORT Transaction discarded because of previous errors.",
        }
    }

    /// The answer to a request that is refused so. It takes no memory.
    pub(crate) fn answer(self) -> Act
        ensures { act_now result ≡ Answer (Reply.Error (error_text self)) }
    {
        Act::Answer(Reply::Error(Bytes::from_static(self.text())))
    }
}

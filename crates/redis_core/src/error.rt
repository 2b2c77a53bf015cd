//! The errors with which the sequencer refuses a call.
ghost use Rattle.std.specs.Prelude.{◌≡◌};
ghost use Rattle.model.specs.Call as call;
ghost use Rattle.redis_core.specs.Serving as replies;

use bytes::Bytes;
use kv_types::{Refusal, Reply};

/// The reply that says why a request was refused.
pub(crate) fn refusal_reply(refusal: Refusal) -> Reply
    ensures { result ≡ replies.refusal_reply refusal }
{
    match refusal {
        Refusal::Full => error(b"ERR store is full"),
        _ => memory_reply(),
    }
}

/// The reply that says that memory was refused.
pub(crate) fn memory_reply() -> Reply
    ensures { result ≡ call.memory_reply }
{
    error(b"ERR out of memory")
}

/// An error with a constant text, which takes no memory.
pub(crate) fn error(text: &'static [u8]) -> Reply
    ensures { result ≡ Reply.Error text.now }
{
    Reply::Error(Bytes::from_static(text))
}

//! What the bytes of a connection hold: requests, and at most one fault after them.
ghost use Rattle.std.specs.Prelude.{◌≡◌, [], ◌∷◌, ◌++◌, codes, IfOk};
ghost use Rattle.kv_types.specs.Fault.{shown};

use crate::request::Request;
use bytes::Bytes;
use std::alloc::{AllocError, Global};

/// One thing in a connection's bytes that has to be answered.
#[derive(Debug, Drop)]
pub enum Item {
    Request(Request),
    /// The bytes begin no request. The fault is answered in its turn, and the connection is over.
    Fault(ProtocolFault),
}

impl Clone for Item {
    ghost use Rattle.std.specs.Prelude.{◌≡◌};

    ghost is_clone = { λ item copy. copy ≡ item };

    fn clone(&self) -> Result<Item, AllocError> {
        Ok(match self {
            Item::Request(request) => Item::Request(request.clone()?),
            Item::Fault(fault) => Item::Fault(*fault),
        })
    }
}

/// What is wrong with bytes that begin no request, by the position of the first wrong byte.
#[derive(Clone, Copy, Debug, PartialEq, Eq)]
pub enum ProtocolFault {
    /// The first byte of a request is not `*`.
    ExpectedArray,
    /// The first wrong byte is in the number of words or its line end.
    InvalidMultibulkLength,
    /// The first byte of a word is not `$`. Holds the byte found instead.
    ExpectedBulk(u8),
    /// The first wrong byte is in the length of a word or its line end.
    InvalidBulkLength,
    /// A word is not followed by a line end.
    ExpectedLineEnd,
}

impl ProtocolFault {
    ghost use Rattle.std.specs.Prelude.{◌≡◌, ℕ, IfOk, IsErr};
    ghost use Rattle.kv_types.specs.Fault.{fault_message};

    /// The text of the error that answers the fault. Only `ExpectedBulk`, which shows a byte, takes memory.
    pub fn message(self, alloc: Global) -> Result<Bytes, AllocError>
        ensures text { IfOk result (λ text. text ≡ fault_message self) }
        ensures memory { IsErr result → (byte : ℕ) × (self ≡ Self.ExpectedBulk byte) }
    {
        let text: &'static [u8] = match self {
            ProtocolFault::ExpectedArray => b"ERR Protocol error: expected '*'",
            ProtocolFault::InvalidMultibulkLength =>
                b"ERR Protocol error: invalid multibulk length",
            ProtocolFault::ExpectedBulk(byte) => return expected_bulk_message(alloc, byte),
            ProtocolFault::InvalidBulkLength => b"ERR Protocol error: invalid bulk length",
            ProtocolFault::ExpectedLineEnd => b"ERR Protocol error: expected CRLF",
        };
        Ok(Bytes::from_static(text))
    }
}

fn expected_bulk_message(alloc: Global, got: u8) -> Result<Bytes, AllocError>
    ensures { IfOk result (λ text. text ≡ codes "ERR Protocol error: expected '$', got '" ++ shown got ∷ 39 ∷ []) }
{
    let mut text = Vec::from_slice(alloc, b"ERR Protocol error: expected '$', got '")?;
    text.push(shown_byte(got))?;
    text.push(b'\'')?;
    Ok(Bytes::from_vec(text)?)
}

/// The byte itself if it is printable, and otherwise `?`.
fn shown_byte(byte: u8) -> u8
    ensures { result ≡ shown byte }
{
    match byte {
        0x20..=0x7e => byte,
        _ => b'?',
    }
}

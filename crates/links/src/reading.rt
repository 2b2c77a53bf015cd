//! Reading from the other node.
ghost use Rattle.std.specs.Prelude.{◌≡◌, ◌≢◌, ◌≤◌, ℕ, List, None, vec_len, IfErr, IfOk, IfSome};
ghost use Rattle.std.specs.Io.KnownBytes.{Consumes, ReadConsumes};
ghost use Rattle.std.specs.IoError.{error_kind};
ghost use Rattle.stream_codec.specs.Scanning.{sent_of_all};
ghost use Rattle.links.specs.Reading.{ReadsPiece};

use std::alloc::{AllocError, Global};
use std::io::{self, ErrorKind, Read};
use stream_codec::{Decoder, Message};

/// Room for what is read at once.
pub(crate) fn new_block(alloc: Global, bytes: usize) -> Result<Vec<u8>, AllocError> {
    vec![in alloc; 0u8; bytes]
}

/// Reads what has come. `None` where the other side closed the connection, or it broke, or there was no memory for what came. A read that a signal
/// interrupted is made again.
pub(crate) fn read_messages<I: Read>(
    from: &mut I,
    decoder: &mut Decoder,
    block: &mut Vec<u8>,
) -> Option<Vec<Message>>
    ensures read { IfSome result (λ messages. ReadsPiece (I.remaining from.old) (I.remaining from.new) decoder.old (sent_of_all messages.items) decoder.new) }
    ensures ended { result ≡ None → (decoder.new ≡ decoder.old) × ((lost : List ℕ) × Consumes (I.remaining from.old) (I.remaining from.new) lost) }
{
    let count = read_some(from, block).ok()?;
    if count == 0 {
        return None;
    }
    decoder.feed(&block[..count]).ok()
}

/// Reads once. A read that a signal interrupted is none, and is made again.
///
/// # Errors
///
/// That of the reader, with nothing read.
fn read_some<I: Read>(from: &mut I, block: &mut Vec<u8>) -> io::Result<usize>
    ensures read { ReadConsumes (I.remaining from.old) (I.remaining from.new) result block.new.items }
    ensures bound { IfOk result (λ count. count ≤ vec_len block.new) }
    ensures cause { IfErr result (λ error. error_kind error ≢ ErrorKind.Interrupted) }
{
    for _ in 0..u64::MAX {
        match from.read(block) {
            Err(error) if error.kind() == ErrorKind::Interrupted => {}
            read => return read,
        }
    }
    Err(io::Error::from(ErrorKind::TimedOut))
}

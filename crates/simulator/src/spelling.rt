//! Requests as bytes.
ghost use Rattle.std.specs.Prelude.{◌≡◌, ◌∷◌, ◌++◌, flat_map, IfOk, OnOk};
ghost use Rattle.kv_types.specs.Request.{spelling, number_line, bulk};

use bytes::Bytes;
use itoa::Buffer;
use kv_types::{Payload, Reply};
use resp_codec::write_reply;
use std::alloc::{AllocError, Global};

/// The spelling of the request with these words.
pub fn spelled(alloc: Global, words: Vec<Bytes>) -> Result<Bytes, AllocError>
    ensures { IfOk result (λ text. text ≡ spelling words.items) }
{
    let mut text = head_of(alloc, words.len())?;
    put_words(&mut text, words)?;
    Ok(Bytes::from_vec(text)?)
}

/// What comes before the words of a request of `count` words.
fn head_of(alloc: Global, count: usize) -> Result<Vec<u8>, AllocError>
    ensures { IfOk result (λ text. text.items ≡ 42 ∷ number_line count) }
{
    let mut text = vec![in alloc; b'*']?;
    let mut buffer = Buffer::new();
    text.extend_from_slice(buffer.format(count).as_bytes())?;
    text.extend_from_slice(b"\r\n")?;
    Ok(text)
}

/// Appends words, each spelled as a bulk string.
fn put_words(text: &mut Vec<u8>, words: Vec<Bytes>) -> Result<(), AllocError>
    ensures { OnOk result (text.new.items ≡ text.old.items ++ flat_map bulk words.items) }
{
    for word in words {
        write_reply(&Reply::Bulk(Payload::new(word)), text)?;
    }
    Ok(())
}

//! Requests as bytes.
ghost use Rattle.std.specs.Prelude.{◌≡◌, ◌∷◌, [], ◌++◌, IfOk, OnOk};
ghost use Rattle.kv_types.specs.Request.{bulk, number_line, spelling};

use bytes::Bytes;
use itoa::Buffer;
use std::alloc::{AllocError, Global};

/// The one spelling of a request of these words, however many they are and however long. Fails only with `AllocError`.
pub fn spelled(alloc: Global, words: &[Bytes]) -> Result<Vec<u8>, AllocError>
    ensures { IfOk result (λ text. text.items ≡ spelling words.now) }
{
    let mut text = Vec::new(alloc);
    put_number(b'*', words.len(), &mut text)?;
    for word in words {
        put_word(word.as_slice(), &mut text)?;
    }
    Ok(text)
}

/// Puts a word as a bulk string.
fn put_word(word: &[u8], text: &mut Vec<u8>) -> Result<(), AllocError>
    ensures { OnOk result (text.new.items ≡ text.old.items ++ bulk word.now) }
{
    put_number(b'$', word.len(), text)?;
    text.extend_from_slice(word)?;
    text.extend_from_slice(b"\r\n")
}

/// Puts a first byte, the number and a line end.
fn put_number(first: u8, number: usize, text: &mut Vec<u8>) -> Result<(), AllocError>
    ensures { OnOk result (text.new.items ≡ text.old.items ++ first ∷ number_line number) }
{
    text.push(first)?;
    text.extend_from_slice(Buffer::new().format(number).as_bytes())?;
    text.extend_from_slice(b"\r\n")
}

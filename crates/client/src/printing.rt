//! Replies as they are printed.
ghost use Rattle.std.specs.Prelude.{◌≡◌, ◌∷◌, ◌+◌, ◌<◌, [], ◌++◌, IfOk, OnOk, codes};
ghost use Rattle.std.specs.Fmt.{decimal};
ghost use Rattle.client.specs.Printed.{escaped, hex_digit, indentation, is_plain, line, lines_at, printed_reply, quoted};

use itoa::Buffer;
use kv_types::Reply;
use std::alloc::{AllocError, Global};

/// What is printed for a reply: a line, and for an array a line for each of its replies too. Fails only with `AllocError`.
pub fn printed(alloc: Global, reply: &Reply) -> Result<Vec<u8>, AllocError>
    ensures { IfOk result (λ text. text.items ≡ printed_reply reply.now) }
{
    let mut text = Vec::new(alloc);
    put_reply(0, reply, &mut text)?;
    Ok(text)
}

/// Puts the lines of a reply that stands within `depth` arrays.
fn put_reply(depth: u64, reply: &Reply, text: &mut Vec<u8>) -> Result<(), AllocError>
    ensures { OnOk result (text.new.items ≡ text.old.items ++ lines_at depth reply.now) }
{
    match reply {
        Reply::Simple(bytes) => put_line(depth, bytes.as_slice(), b"", text),
        Reply::Error(bytes) => put_line(depth, b"(error) ", bytes.as_slice(), text),
        Reply::Int(n) => put_line(
            depth,
            b"(integer) ",
            Buffer::new().format(*n).as_bytes(),
            text,
        ),
        Reply::Bulk(bytes) => put_bulk(depth, bytes.as_slice(), text),
        Reply::NullBulk => put_line(depth, b"(nil)", b"", text),
        Reply::NullArray => put_line(depth, b"(nil array)", b"", text),
        Reply::Array(replies) => {
            put_count(depth, replies.len(), text)?;
            let inner = deeper(depth)?;
            for element in replies.as_slice() {
                put_reply(inner, element, text)?;
            }
            Ok(())
        }
    }
}

/// One array further in. No memory holds so many arrays within one another that they cannot be counted.
fn deeper(depth: u64) -> Result<u64, AllocError>
    ensures { IfOk result (λ inner. inner ≡ depth + 1) }
{
    depth.checked_add(1).ok_or(AllocError)
}

/// Puts a line of these two parts.
fn put_line(depth: u64, front: &[u8], back: &[u8], text: &mut Vec<u8>) -> Result<(), AllocError>
    ensures { OnOk result (text.new.items ≡ text.old.items ++ line depth (front.now ++ back.now)) }
{
    put_indentation(depth, text)?;
    text.extend_from_slice(front)?;
    text.extend_from_slice(back)?;
    text.push(b'\n')?;
    Ok(())
}

/// Puts the line of an array of so many replies.
fn put_count(depth: u64, count: usize, text: &mut Vec<u8>) -> Result<(), AllocError>
    ensures { OnOk result (text.new.items ≡ text.old.items ++ line depth (codes "(array " ++ decimal count ++ codes ")")) }
{
    put_indentation(depth, text)?;
    text.extend_from_slice(b"(array ")?;
    text.extend_from_slice(Buffer::new().format(count).as_bytes())?;
    text.extend_from_slice(b")\n")
}

/// Puts the line of a bulk string.
fn put_bulk(depth: u64, bytes: &[u8], text: &mut Vec<u8>) -> Result<(), AllocError>
    ensures { OnOk result (text.new.items ≡ text.old.items ++ line depth (quoted bytes.now)) }
{
    put_indentation(depth, text)?;
    text.push(b'"')?;
    for byte in bytes {
        put_escaped(*byte, text)?;
    }
    text.extend_from_slice(b"\"\n")
}

/// Puts two spaces for each array that a reply stands within.
fn put_indentation(depth: u64, text: &mut Vec<u8>) -> Result<(), AllocError>
    ensures { OnOk result (text.new.items ≡ text.old.items ++ indentation depth) }
{
    for _level in 0..depth {
        text.extend_from_slice(b"  ")?;
    }
    Ok(())
}

/// Puts a byte of a bulk string.
fn put_escaped(byte: u8, text: &mut Vec<u8>) -> Result<(), AllocError>
    ensures { OnOk result (text.new.items ≡ text.old.items ++ escaped byte) }
{
    if is_plain(byte) {
        text.push(byte)?;
        return Ok(());
    }
    text.extend_from_slice(&[b'\\', b'x', hex_digit(byte / 16), hex_digit(byte % 16)])
}

/// Whether a byte stands for itself between double quotes.
fn is_plain(byte: u8) -> bool
    ensures { result ≡ is_plain byte }
{
    b' ' <= byte && byte <= b'~' && byte != b'"' && byte != b'\\'
}

/// A digit of base 16.
fn hex_digit(n: u8) -> u8
    requires { n < 16 }
    ensures { result ≡ hex_digit n }
{
    if n < 10 { b'0' + n } else { b'a' + (n - 10) }
}

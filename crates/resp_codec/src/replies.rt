//! Replies as bytes.
ghost use Rattle.std.specs.Prelude.{◌≡◌, ◌+◌, ◌^◌, ◌<◌, ◌≤◌, [], ◌∷◌, ◌++◌, length, OnOk, OnErr, IsOk};
ghost use Rattle.std.specs.Option.{SomeIff};
ghost use Rattle.kv_types.specs.Request.{number_line, bulk};
ghost use Rattle.kv_types.specs.Reply.{text_of};
ghost use Rattle.resp_codec.specs.Puts.{Puts};

use bytes::BufMut;
use itoa::{Buffer, Integer};
use kv_types::Reply;
use std::alloc::AllocError;

/// Appends the reply's bytes to `out`, nested arrays included. It fails only if `out` had no room for them and could not make it, and
/// then nothing is written.
pub fn write_reply<W: BufMut>(reply: &Reply, out: &mut W) -> Result<(), AllocError>
    ensures ok { OnOk result (W.written out.new ≡ W.written out.old ++ text_of reply.now) }
    ensures err { OnErr result (W.written out.new ≡ W.written out.old) }
    ensures succeeds { length (text_of reply.now) < 2 ^ 64 → length (text_of reply.now) ≤ W.spare out.old → IsOk result }
    ensures spare { OnOk result (W.spare out.old ≤ W.spare out.new + length (text_of reply.now)) }
{
    let len = text_len(reply).ok_or(AllocError)?;
    out.reserve(len)?;
    put_reply(reply, out)
}

/// How many bytes the reply's text has, or `None` if no memory could hold them.
fn text_len(reply: &Reply) -> Option<usize>
    ensures { SomeIff result (length (text_of reply.now) < 2 ^ 64) (length (text_of reply.now)) }
{
    match reply {
        Reply::Simple(text) | Reply::Error(text) => text.len().checked_add(3),
        Reply::Int(n) => Buffer::new().format(*n).len().checked_add(3),
        Reply::Bulk(bytes) => {
            let head = Buffer::new().format(bytes.len()).len();
            bytes.len().checked_add(head)?.checked_add(5)
        }
        Reply::NullBulk | Reply::NullArray => Some(5),
        Reply::Array(replies) => {
            let mut len = Buffer::new().format(replies.len()).len().checked_add(3)?;
            for element in replies.as_slice() {
                len = len.checked_add(text_len(element)?)?;
            }
            Some(len)
        }
    }
}

/// Puts the reply's bytes.
fn put_reply<W: BufMut>(reply: &Reply, out: &mut W) -> Result<(), AllocError>
    ensures { Puts result (W.written out.old) (W.written out.new) (W.spare out.old) (W.spare out.new) (text_of reply.now) }
{
    match reply {
        Reply::Simple(text) => put_line(out, b'+', text.as_slice()),
        Reply::Error(text) => put_line(out, b'-', text.as_slice()),
        Reply::Int(n) => put_number(out, b':', *n),
        Reply::Bulk(bytes) => {
            put_number(out, b'$', bytes.len())?;
            out.put_slice(bytes.as_slice())?;
            out.put_slice(b"\r\n")
        }
        Reply::NullBulk => out.put_slice(b"$-1\r\n"),
        Reply::Array(replies) => {
            put_number(out, b'*', replies.len())?;
            for element in replies.as_slice() {
                put_reply(element, out)?;
            }
            Ok(())
        }
        Reply::NullArray => out.put_slice(b"*-1\r\n"),
    }
}

/// Puts a first byte, the text and a line end.
fn put_line<W: BufMut>(out: &mut W, first: u8, text: &[u8]) -> Result<(), AllocError>
    ensures { Puts result (W.written out.old) (W.written out.new) (W.spare out.old) (W.spare out.new) (first ∷ text.now ++ 13 ∷ 10 ∷ []) }
{
    out.put_u8(first)?;
    out.put_slice(text)?;
    out.put_slice(b"\r\n")
}

/// Puts a first byte, the number and a line end.
fn put_number<W: BufMut, I: Integer>(out: &mut W, first: u8, n: I) -> Result<(), AllocError>
    ensures { Puts result (W.written out.old) (W.written out.new) (W.spare out.old) (W.spare out.new) (first ∷ I.text n ++ 13 ∷ 10 ∷ []) }
{
    let mut buffer = Buffer::new();
    put_line(out, first, buffer.format(n).as_bytes())
}

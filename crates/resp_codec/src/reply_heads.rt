//! Heads of replies read from the front of bytes.
ghost use Rattle.std.specs.Prelude.{◌≡◌, ℕ, ◌+◌, ◌-◌, ◌<◌, ◌≤◌, ◌^◌, negsuc, length};
ghost use Rattle.kv_types.specs.Reader.{Gives};
ghost use Rattle.resp_codec.specs.ReplyReading.{line_length, line_at, negative_at, integer_at, after_null, bulk_at, count_at, head_at};
ghost use Rattle.resp_codec.specs.GivesReplies.{head_read};

use crate::reading::{after_byte, number_at, payload_at};
use bytes::Bytes;
use kv_types::{Payload, ProtocolFault, Reply, Stop};
use std::alloc::{AllocError, Global};

/// A reply that is no array, with its bytes where they were read.
#[derive(Clone, Copy, Debug)]
pub(crate) enum Plain<'a> {
    Simple(&'a [u8]),
    Error(&'a [u8]),
    Int(i64),
    Bulk(&'a [u8]),
    NullBulk,
    NullArray,
}

impl Plain<'_> {
    ghost use Rattle.std.specs.Prelude.{◌≡◌, IfOk};
    ghost use Rattle.resp_codec.specs.GivesReplies.{reply_of};

    /// The reply, with a copy of its bytes.
    pub(crate) fn copy(self, alloc: Global) -> Result<Reply, AllocError>
        ensures { IfOk result (λ reply. reply ≡ reply_of self.entry) }
    {
        Ok(match self {
            Plain::Simple(text) => Reply::Simple(Bytes::copy_from_slice(alloc, text)?),
            Plain::Error(text) => Reply::Error(Bytes::copy_from_slice(alloc, text)?),
            Plain::Int(n) => Reply::Int(n),
            Plain::Bulk(bytes) => {
                Reply::Bulk(Payload::new(Bytes::copy_from_slice(alloc, bytes)?))
            }
            Plain::NullBulk => Reply::NullBulk,
            Plain::NullArray => Reply::NullArray,
        })
    }
}

/// The head of a reply: all of it if it is no array, and otherwise the number of the array's replies, which follow.
#[derive(Clone, Copy, Debug)]
pub(crate) enum Head<'a> {
    Whole(Plain<'a>),
    Opens(u64),
}

/// How many bytes stand before the first CR or LF.
fn line_length(bytes: &[u8]) -> usize
    ensures value { result ≡ line_length bytes.now }
    ensures bound { result ≤ length bytes.now }
{
    let mut length = 0;
    let mut rest = bytes;
    while let Some((byte, after)) = rest.split_first() {
        if *byte == b'\r' || *byte == b'\n' {
            return length;
        }
        length += 1;
        rest = after;
    }
    length
}

/// A line without its line end.
fn line_at(bytes: &[u8]) -> Result<(&[u8], &[u8]), Stop<ProtocolFault>>
    ensures { Gives (λ x. (x.0.now, x.1.now)) result (line_at bytes.now) }
{
    payload_at(bytes, line_length(bytes) as u64)
}

/// The integer `-n`.
fn negated(n: u64) -> i64
    requires positive { 0 < n }
    requires fits { n ≤ 2 ^ 63 }
    ensures { result ≡ negsuc (n - 1) }
{
    -((n - 1) as i64) - 1
}

/// An integer below zero, after its `-`.
fn negative_at(bytes: &[u8]) -> Result<(i64, &[u8]), Stop<ProtocolFault>>
    ensures { Gives (λ x. (x.0, x.1.now)) result (negative_at bytes.now) }
{
    match bytes.split_first() {
        None => Err(Stop::Short),
        Some((byte, _digits)) => {
            if *byte == b'0' {
                return Err(Stop::Broken(ProtocolFault::ExpectedLineEnd));
            }
            let (n, rest) = number_at(bytes, 1 << 63, ProtocolFault::ExpectedLineEnd)?;
            Ok((negated(n), rest))
        }
    }
}

/// An integer and its line end.
fn integer_at(bytes: &[u8]) -> Result<(i64, &[u8]), Stop<ProtocolFault>>
    ensures { Gives (λ x. (x.0, x.1.now)) result (integer_at bytes.now) }
{
    match bytes.split_first() {
        None => Err(Stop::Short),
        Some((byte, after)) => {
            if *byte == b'-' {
                return negative_at(after);
            }
            let (n, rest) = number_at(bytes, i64::MAX as u64, ProtocolFault::ExpectedLineEnd)?;
            Ok((n as i64, rest))
        }
    }
}

/// What follows the `-` of a null reply.
fn after_null(bytes: &[u8]) -> Result<&[u8], Stop<ProtocolFault>>
    ensures { Gives (λ rest. rest.now) result (after_null bytes.now) }
{
    let rest = after_byte(bytes, b'1', ProtocolFault::ExpectedLineEnd)?;
    let rest = after_byte(rest, b'\r', ProtocolFault::ExpectedLineEnd)?;
    after_byte(rest, b'\n', ProtocolFault::ExpectedLineEnd)
}

/// A bulk string of at most `most` bytes, or the null bulk string, after the `$`.
fn bulk_at(bytes: &[u8], most: u64) -> Result<(Head<'_>, &[u8]), Stop<ProtocolFault>>
    ensures { Gives (λ x. (head_read x.0, x.1.now)) result (bulk_at most bytes.now) }
{
    match bytes.split_first() {
        None => Err(Stop::Short),
        Some((byte, after)) => {
            if *byte == b'-' {
                return Ok((Head::Whole(Plain::NullBulk), after_null(after)?));
            }
            let (len, rest) = number_at(bytes, most, ProtocolFault::InvalidBulkLength)?;
            let (word, rest) = payload_at(rest, len)?;
            Ok((Head::Whole(Plain::Bulk(word)), rest))
        }
    }
}

/// The number of replies of an array, at most `most`, or the null array, after the `*`.
fn count_at(bytes: &[u8], most: u64) -> Result<(Head<'_>, &[u8]), Stop<ProtocolFault>>
    ensures { Gives (λ x. (head_read x.0, x.1.now)) result (count_at most bytes.now) }
{
    match bytes.split_first() {
        None => Err(Stop::Short),
        Some((byte, after)) => {
            if *byte == b'-' {
                return Ok((Head::Whole(Plain::NullArray), after_null(after)?));
            }
            let (count, rest) = number_at(bytes, most, ProtocolFault::InvalidMultibulkLength)?;
            Ok((Head::Opens(count), rest))
        }
    }
}

/// The head at the front: a bulk string has at most `bulk_bytes` bytes, an array at most `most` replies.
pub(crate) fn head_at(
    bytes: &[u8],
    bulk_bytes: u64,
    most: u64,
) -> Result<(Head<'_>, &[u8]), Stop<ProtocolFault>>
    ensures { Gives (λ x. (head_read x.0, x.1.now)) result (head_at bulk_bytes most bytes.now) }
{
    let Some((byte, after)) = bytes.split_first() else {
        return Err(Stop::Short);
    };
    match *byte {
        b'+' => {
            let (text, rest) = line_at(after)?;
            Ok((Head::Whole(Plain::Simple(text)), rest))
        }
        b'-' => {
            let (text, rest) = line_at(after)?;
            Ok((Head::Whole(Plain::Error(text)), rest))
        }
        b':' => {
            let (n, rest) = integer_at(after)?;
            Ok((Head::Whole(Plain::Int(n)), rest))
        }
        b'$' => bulk_at(after, bulk_bytes),
        b'*' => count_at(after, most),
        _ => Err(Stop::Broken(ProtocolFault::ExpectedLineEnd)),
    }
}

//! The bytes of replies, of which large values are shared.
ghost use Rattle.std.specs.Prelude.{◌≡◌, ◌+◌, ◌<◌, ◌≤◌, [], ◌∷◌, ◌++◌, length, take, drop, List, ℕ, OnOk, OnErr, vec_len, vec_capacity};
ghost use Rattle.reply_gate.specs.Woven.{IsWoven};

use crate::shared_part::SharedPart;
use bytes::{Buf, Bytes, BytesMut};
use itoa::Buffer;
use kv_types::{Payload, Reply};
use resp_codec::write_reply;
use std::alloc::{AllocError, Global};
use std::collections::VecDeque;

/// A bulk value of at least so many bytes is shared with its owner; a smaller one is copied.
pub const SHARED_BYTES: usize = 32_768;

/// How many bytes all values together have at most that are shared at a time. They are counted as often as they are shared.
const MOST_SHARED_BYTES: usize = 0x7fff_ffff_ffff_ffff;

/// A text in which values stand that are shared and not copied.
#[derive(Drop)]
pub(crate) struct Parts {
    /// All bytes but those of the values.
    text: BytesMut,
    /// The values, in order.
    values: VecDeque<SharedPart>,
    /// How many bytes of the text stand before the last value.
    led: usize,
    /// How many bytes all values have.
    shared: usize,
    ghost woven: { IsWoven led shared values.items text.items },
}

impl Parts {
    ghost use Rattle.std.specs.Fmt.{decimal};
    ghost use Rattle.kv_types.specs.Request.{line_end, bulk};
    ghost use Rattle.kv_types.specs.Reply.{text_of};
    ghost use Rattle.reply_gate.specs.Parts.{all_bytes, Grows};

    /// No bytes. It takes no memory.
    pub(crate) fn new(alloc: Global) -> Parts
        ensures { all_bytes result ≡ [] }
    {
        Parts {
            text: BytesMut::new(alloc),
            values: VecDeque::new(alloc),
            led: 0,
            shared: 0,
        }
    }

    /// How many bytes there are.
    pub(crate) fn len(&self) -> usize
        ensures { result ≡ length (all_bytes self.now) }
    {
        self.text.len() + self.shared
    }

    /// The first bytes: all that lie together. There are none only where there are none at all.
    pub(crate) fn first(&self) -> &[u8]
        ensures first { (rest : List ℕ) × (all_bytes self.now ≡ result.now ++ rest) }
        ensures some { result.now ≡ [] → all_bytes self.now ≡ [] }
    {
        let Some(part) = self.values.front() else {
            return self.text.as_slice();
        };
        if part.lead > 0 {
            return &self.text.as_slice()[..part.lead];
        }
        part.bytes.as_slice()
    }

    /// Removes the first `n` bytes.
    pub(crate) fn advance(&mut self, n: usize)
        requires { n ≤ length (all_bytes self.old) }
        ensures { all_bytes self.new ≡ drop n (all_bytes self.old) }
    {
        if self.values.is_empty() {
            self.text.advance(n);
            self.rewind();
            return;
        }
        let mut left = n;
        while left > 0 {
            left -= self.advance_first(left);
        }
        self.rewind();
    }

    /// Where nothing of the text is left, what comes next begins at the front of its block: behind what was removed it would be moved as it grows.
    fn rewind(&mut self)
        ensures { all_bytes self.new ≡ all_bytes self.old }
    {
        if self.text.is_empty() {
            self.text.clear();
        }
    }

    /// Removes up to `most` of the bytes that lie together first, and says how many.
    fn advance_first(&mut self, most: usize) -> usize
        requires some { 0 < most }
        requires within { most ≤ length (all_bytes self.old) }
        ensures some { 0 < result }
        ensures within { result ≤ most }
        ensures rest { all_bytes self.new ≡ drop result (all_bytes self.old) }
    {
        let Some(mut part) = self.values.pop_front() else {
            self.text.advance(most);
            return most;
        };
        if part.lead > 0 {
            let count = most.min(part.lead);
            self.text.advance(count);
            self.led -= count;
            part.lead -= count;
            self.values.push_front_reserved(part);
            return count;
        }
        let count = most.min(part.bytes.len());
        self.shared -= count;
        if count < part.bytes.len() {
            part.bytes.advance(count);
            self.values.push_front_reserved(part);
        }
        count
    }

    /// Appends the reply's text. An `Err` leaves all bytes as they were.
    pub(crate) fn write(&mut self, reply: &Reply) -> Result<(), AllocError>
        ensures ok { OnOk result (all_bytes self.new ≡ all_bytes self.old ++ text_of reply.now) }
        ensures err { OnErr result (all_bytes self.new ≡ all_bytes self.old) }
    {
        let (text, values, led, shared) = (
            self.text.len(),
            self.values.len(),
            self.led,
            self.shared,
        );
        let written = self.put(reply);
        if written.is_err() {
            self.text.truncate(text);
            self.values.truncate(values);
            self.led = led;
            self.shared = shared;
        }
        written
    }

    /// Puts the reply's text behind the rest. After an `Err` a part of it may stand there.
    fn put(&mut self, reply: &Reply) -> Result<(), AllocError>
        ensures ok { OnOk result (all_bytes self.new ≡ all_bytes self.old ++ text_of reply.now) }
        ensures grew { Grows self.old self.new }
    {
        match reply {
            Reply::Bulk(bytes) => self.put_bulk(bytes, reply),
            Reply::Array(replies) => {
                self.put_head(b'*', replies.len())?;
                for element in replies.as_slice() {
                    self.put(element)?;
                }
                Ok(())
            }
            _ => self.put_copied(reply),
        }
    }

    /// Puts a bulk string. A large value is shared and not copied.
    fn put_bulk(&mut self, bytes: &Payload, reply: &Reply) -> Result<(), AllocError>
        requires { text_of reply.now ≡ bulk bytes.now }
        ensures ok { OnOk result (all_bytes self.new ≡ all_bytes self.old ++ bulk bytes.now) }
        ensures grew { Grows self.old self.new }
    {
        if bytes.len() < SHARED_BYTES {
            return self.put_copied(reply);
        }
        match bytes.to_bytes()? {
            Some(value) => self.put_large(value),
            None => self.put_copied(reply),
        }
    }

    /// Puts a bulk string whose value is not copied.
    fn put_large(&mut self, value: Bytes) -> Result<(), AllocError>
        requires { 0 < length value }
        ensures ok { OnOk result (all_bytes self.new ≡ all_bytes self.old ++ bulk value) }
        ensures grew { Grows self.old self.new }
    {
        self.put_head(b'$', value.len())?;
        self.put_shared(value)?;
        self.put_bytes(b"\r\n")
    }

    /// Puts a first byte, a number and a line end.
    fn put_head(&mut self, first: u8, number: usize) -> Result<(), AllocError>
        ensures ok { OnOk result (all_bytes self.new ≡ all_bytes self.old ++ (first ∷ decimal number ++ line_end)) }
        ensures grew { Grows self.old self.new }
    {
        self.put_bytes(&[first])?;
        self.put_bytes(Buffer::new().format(number).as_bytes())?;
        self.put_bytes(b"\r\n")
    }

    /// Puts the reply's text with all its values.
    fn put_copied(&mut self, reply: &Reply) -> Result<(), AllocError>
        ensures ok { OnOk result (all_bytes self.new ≡ all_bytes self.old ++ text_of reply.now) }
        ensures grew { Grows self.old self.new }
    {
        write_reply(reply, &mut self.text)
    }

    /// Puts a few bytes.
    fn put_bytes(&mut self, bytes: &[u8]) -> Result<(), AllocError>
        ensures ok { OnOk result (all_bytes self.new ≡ all_bytes self.old ++ bytes.now) }
        ensures grew { Grows self.old self.new }
    {
        self.text.extend_from_slice(bytes)
    }

    /// Puts a value that is not copied.
    fn put_shared(&mut self, value: Bytes) -> Result<(), AllocError>
        requires { 0 < length value }
        ensures ok { OnOk result (all_bytes self.new ≡ all_bytes self.old ++ value) }
        ensures grew { Grows self.old self.new }
    {
        let count = value.len();
        if MOST_SHARED_BYTES - self.shared < count {
            return Err(AllocError);
        }
        let text = self.text.len();
        self.values.reserve(1)?;
        self.values.push_back_reserved(SharedPart {
            lead: text - self.led,
            bytes: value,
        });
        self.led = text;
        self.shared += count;
        Ok(())
    }

    /// Moves the first `n` bytes to the end of `out`. An `Err` changes nothing of what both hold.
    pub(crate) fn move_to(&mut self, n: usize, out: &mut Vec<u8>) -> Result<(), AllocError>
        requires { n ≤ length (all_bytes self.old) }
        ensures rest { OnOk result (all_bytes self.new ≡ drop n (all_bytes self.old)) }
        ensures out { OnOk result (out.new.items ≡ out.old.items ++ take n (all_bytes self.old)) }
        ensures err { OnErr result ((self.new ≡ self.old) × (out.new.items ≡ out.old.items)) }
    {
        out.reserve(n)?;
        let mut left = n;
        while left > 0 {
            left -= self.move_first(left, out);
        }
        Ok(())
    }

    /// Moves up to `most` of the bytes that lie together first, and says how many. There is room for them.
    fn move_first(&mut self, most: usize, out: &mut Vec<u8>) -> usize
        requires some { 0 < most }
        requires within { most ≤ length (all_bytes self.old) }
        requires room { vec_len out.old + most ≤ vec_capacity out.old }
        ensures some { 0 < result }
        ensures within { result ≤ most }
        ensures rest { all_bytes self.new ≡ drop result (all_bytes self.old) }
        ensures out { out.new.items ≡ out.old.items ++ take result (all_bytes self.old) }
        ensures len { vec_len out.new ≡ vec_len out.old + result }
        ensures room { vec_capacity out.old ≤ vec_capacity out.new }
    {
        let first = self.first();
        let count = most.min(first.len());
        let _ = out.extend_from_slice(&first[..count]);
        self.advance(count);
        count
    }
}

//! The frames of a copy as bytes, and what tells how many puts one of them takes.
ghost use Rattle.std.specs.Prelude.{◌≡◌, ◌↔◌, ◌+◌, ◌^◌, ◌<◌, ◌≤◌, [], ◌∷◌, ◌++◌, length, map, IsTrue, OnOk, OnErr, IsOk};
ghost use Rattle.std.specs.List.{flat_map, AllByRecursion};
ghost use Rattle.std.specs.Option.{SomeIff};
ghost use Rattle.kv_types.specs.declared.change.Change.TheVariants.{Put};
ghost use Rattle.kv_types.specs.Change.{change_text, changes_text, changes_size};
ghost use Rattle.stream_codec.specs.Message.{IsChange, IsWithinLimits, long, put_of, sent_of_wanted, sent_of_part, sent_of_end, sent_text};
ghost use Rattle.stream_codec.specs.Puts.{Puts};

use crate::message::{LEAST_PUT_BYTES, MAX_PART_BYTES};
use crate::writing::{put_numbers, put_record};
use bytes::BufMut;
use frames::{CopyEnd, CopyPart, CopyWanted};
use kv_types::{RecordId, Value};
use std::alloc::AllocError;

/// How many bytes the frame has by which a copy is wanted: the kind and the epoch.
pub const COPY_WANTED_BYTES: usize = 1 + 8;

/// How many bytes the frame of a part has before its puts: the kind, the epoch, the position, the number of the part, and the length of the puts.
pub const PART_HEAD_BYTES: usize = 1 + 8 + 8 + 8 + 8;

/// How many bytes the frame has that ends a copy: the kind, the epoch, the position, and how many parts there are.
pub const COPY_END_BYTES: usize = 1 + 8 + 8 + 8;

/// How many bytes a put has: from 7 to 1,049,609.
pub fn put_len(id: &RecordId, value: &Value) -> u64
    ensures value { result ≡ length (change_text (Put id.now value.now)) }
    ensures bounds { (LEAST_PUT_BYTES ≤ result) × (result ≤ 1_049_609) }
{
    let names = match id {
        RecordId::Str(key) => 1 + 2 + key.len(),
        RecordId::Field(key, field) => 1 + 2 + key.len() + 2 + field.len(),
    };
    (names + 4 + value.len()) as u64
}

/// Whether a put still fits into a part of which the puts have `size` bytes. Each put fits into a part without any.
pub fn fits_part(size: u64, id: &RecordId, value: &Value) -> bool
    ensures fits { IsTrue result ↔ (size + length (change_text (Put id.now value.now)) ≤ MAX_PART_BYTES) }
    ensures first { size ≡ 0 → IsTrue result }
{
    put_len(id, value) <= MAX_PART_BYTES.saturating_sub(size)
}

/// Appends the bytes of a part's frame to `out`, and fails as `write_group` does.
pub fn write_part<W: BufMut>(part: &CopyPart, out: &mut W) -> Result<(), AllocError>
    ensures ok { OnOk result (W.written out.new ≡ W.written out.old ++ sent_text (sent_of_part part.now)) }
    ensures err { OnErr result (W.written out.new ≡ W.written out.old) }
    ensures succeeds { let text = sent_text (sent_of_part part.now) in length text < 2 ^ 64 → length text ≤ W.spare out.old → IsOk result }
    ensures spare { OnOk result (W.spare out.old ≤ W.spare out.new + length (sent_text (sent_of_part part.now))) }
    ensures within { OnOk result (IsWithinLimits (sent_of_part part.now)) }
{
    let len = part_len(part).ok_or(AllocError)?;
    out.reserve(len)?;
    put_part(part, out)
}

/// Appends the bytes of the frame by which a copy is wanted to `out`, and fails as `write_group` does.
pub fn write_wanted<W: BufMut>(wanted: CopyWanted, out: &mut W) -> Result<(), AllocError>
    ensures ok { OnOk result (W.written out.new ≡ W.written out.old ++ sent_text (sent_of_wanted wanted)) }
    ensures err { OnErr result (W.written out.new ≡ W.written out.old) }
    ensures succeeds { COPY_WANTED_BYTES ≤ W.spare out.old → IsOk result }
    ensures spare { OnOk result (W.spare out.old ≤ W.spare out.new + COPY_WANTED_BYTES) }
    ensures within { IsWithinLimits (sent_of_wanted wanted) }
{
    out.reserve(COPY_WANTED_BYTES)?;
    put_wanted(wanted, out)
}

/// Appends the bytes of the frame that ends a copy to `out`, and fails as `write_group` does.
pub fn write_end<W: BufMut>(end: CopyEnd, out: &mut W) -> Result<(), AllocError>
    ensures ok { OnOk result (W.written out.new ≡ W.written out.old ++ sent_text (sent_of_end end)) }
    ensures err { OnErr result (W.written out.new ≡ W.written out.old) }
    ensures succeeds { COPY_END_BYTES ≤ W.spare out.old → IsOk result }
    ensures spare { OnOk result (W.spare out.old ≤ W.spare out.new + COPY_END_BYTES) }
    ensures within { IsWithinLimits (sent_of_end end) }
{
    out.reserve(COPY_END_BYTES)?;
    put_end(end, out)
}

/// How many bytes the frame has, or `None` if no memory could hold them.
fn part_len(part: &CopyPart) -> Option<usize>
    ensures { let len = length (sent_text (sent_of_part part.now)) in SomeIff result (len < 2 ^ 64) len }
{
    let len = puts_len(part.puts.as_slice())?.checked_add(PART_HEAD_BYTES as u64)?;
    Some(len as usize)
}

/// How many bytes the puts have, or `None` if no memory could hold them.
fn puts_len(puts: &[(RecordId, Value)]) -> Option<u64>
    ensures { let size = changes_size (map put_of puts.now) in SomeIff result (size < 2 ^ 64) size }
{
    let mut len: u64 = 0;
    for put in puts {
        len = len.checked_add(put_len(&put.0, &put.1))?;
    }
    Some(len)
}

fn put_wanted<W: BufMut>(wanted: CopyWanted, out: &mut W) -> Result<(), AllocError>
    ensures puts { Puts result (W.written out.old) (W.written out.new) (W.spare out.old) (W.spare out.new) (sent_text (sent_of_wanted wanted)) }
    ensures within { IsWithinLimits (sent_of_wanted wanted) }
{
    out.put_u8(3)?;
    put_numbers(&[wanted.epoch], out)
}

fn put_end<W: BufMut>(end: CopyEnd, out: &mut W) -> Result<(), AllocError>
    ensures puts { Puts result (W.written out.old) (W.written out.new) (W.spare out.old) (W.spare out.new) (sent_text (sent_of_end end)) }
    ensures within { IsWithinLimits (sent_of_end end) }
{
    out.put_u8(5)?;
    put_numbers(&[end.epoch, end.position, end.parts], out)
}

fn put_part<W: BufMut>(part: &CopyPart, out: &mut W) -> Result<(), AllocError>
    requires { changes_size (map put_of part.now.puts.items) < 2 ^ 64 }
    ensures puts { Puts result (W.written out.old) (W.written out.new) (W.spare out.old) (W.spare out.new) (sent_text (sent_of_part part.now)) }
    ensures fits { (part.now.epoch < 2 ^ 64) × (part.now.position < 2 ^ 64) × (part.now.number < 2 ^ 64) }
    ensures within { OnOk result (AllByRecursion IsChange (map put_of part.now.puts.items)) }
{
    let (epoch, position, number) = (part.epoch, part.position, part.number);
    let size = puts_len(part.puts.as_slice()).unwrap();
    out.put_u8(4)?;
    put_numbers(&[epoch, position, number, size], out)?;
    put_puts(part.puts.as_slice(), out)
}

fn put_puts<W: BufMut>(puts: &[(RecordId, Value)], out: &mut W) -> Result<(), AllocError>
    ensures puts { Puts result (W.written out.old) (W.written out.new) (W.spare out.old) (W.spare out.new) (changes_text (map put_of puts.now)) }
    ensures within { OnOk result (AllByRecursion IsChange (map put_of puts.now)) }
{
    for put in puts {
        put_record(&put.0, &put.1, out)?;
    }
    Ok(())
}

//! Frames as bytes.
ghost use Rattle.std.specs.Prelude.{◌≡◌, ◌+◌, ◌^◌, ◌<◌, ◌≤◌, [], ◌∷◌, ◌++◌, length, OnOk, OnErr, IsOk};
ghost use Rattle.std.specs.List.{flat_map, AllByRecursion};
ghost use Rattle.std.specs.Option.{SomeIff};
ghost use Rattle.kv_types.specs.declared.change.Change.TheVariants.{Put};
ghost use Rattle.kv_types.specs.Change.{short_bytes, long_bytes, change_text, changes_text, changes_size};
ghost use Rattle.stream_codec.specs.Message.{IsChange, IsWithinLimits, long, sent_of_frame, sent_of_ack, sent_text};
ghost use Rattle.stream_codec.specs.Puts.{Puts};

use bytes::BufMut;
use frames::{Ack, Frame};
use kv_types::{Change, Key, MAX_KEY_BYTES, MAX_VALUE_BYTES, RecordId, Value};
use std::alloc::AllocError;

/// How many bytes the frame of a group has before its changes: the kind, the epoch, the positions before and after, and the length of the changes.
pub const GROUP_HEAD_BYTES: usize = 1 + 8 + 8 + 8 + 8;

/// How many bytes the frame of an acknowledgement has: the kind, the epoch and the position.
pub const ACK_BYTES: usize = 1 + 8 + 8;

/// Appends the bytes of a group's frame to `out`. It fails only if `out` had no room for them and could not make it, and then nothing is written. Keys,
/// fields and values hold their limits, so each change that is written is within them.
pub fn write_group<W: BufMut>(frame: &Frame, out: &mut W) -> Result<(), AllocError>
    ensures ok { OnOk result (W.written out.new ≡ W.written out.old ++ sent_text (sent_of_frame frame.now)) }
    ensures err { OnErr result (W.written out.new ≡ W.written out.old) }
    ensures succeeds { let text = sent_text (sent_of_frame frame.now) in length text < 2 ^ 64 → length text ≤ W.spare out.old → IsOk result }
    ensures spare { OnOk result (W.spare out.old ≤ W.spare out.new + length (sent_text (sent_of_frame frame.now))) }
    ensures within { OnOk result (IsWithinLimits (sent_of_frame frame.now)) }
{
    let len = group_len(frame).ok_or(AllocError)?;
    out.reserve(len)?;
    put_group(frame, out)
}

/// Appends the bytes of an acknowledgement's frame to `out`, and fails as `write_group` does.
pub fn write_ack<W: BufMut>(ack: Ack, out: &mut W) -> Result<(), AllocError>
    ensures ok { OnOk result (W.written out.new ≡ W.written out.old ++ sent_text (sent_of_ack ack)) }
    ensures err { OnErr result (W.written out.new ≡ W.written out.old) }
    ensures succeeds { ACK_BYTES ≤ W.spare out.old → IsOk result }
    ensures spare { OnOk result (W.spare out.old ≤ W.spare out.new + ACK_BYTES) }
    ensures within { IsWithinLimits (sent_of_ack ack) }
{
    out.reserve(ACK_BYTES)?;
    put_ack(ack, out)
}

/// How many bytes the frame has, or `None` if no memory could hold them.
fn group_len(frame: &Frame) -> Option<usize>
    ensures { let len = length (sent_text (sent_of_frame frame.now)) in SomeIff result (len < 2 ^ 64) len }
{
    let len = body_len(frame.changes.as_slice())?.checked_add(GROUP_HEAD_BYTES as u64)?;
    Some(len as usize)
}

/// How many bytes the changes have, or `None` if no memory could hold them.
fn body_len(changes: &[Change]) -> Option<u64>
    ensures { SomeIff result (changes_size changes.now < 2 ^ 64) (changes_size changes.now) }
{
    let mut len: u64 = 0;
    for change in changes {
        len = len.checked_add(change.text_size() as u64)?;
    }
    Some(len)
}

fn put_ack<W: BufMut>(ack: Ack, out: &mut W) -> Result<(), AllocError>
    ensures puts { Puts result (W.written out.old) (W.written out.new) (W.spare out.old) (W.spare out.new) (sent_text (sent_of_ack ack)) }
    ensures within { IsWithinLimits (sent_of_ack ack) }
{
    out.put_u8(2)?;
    put_numbers(&[ack.epoch(), ack.position()], out)
}

fn put_group<W: BufMut>(frame: &Frame, out: &mut W) -> Result<(), AllocError>
    requires { changes_size frame.now.changes.items < 2 ^ 64 }
    ensures puts { Puts result (W.written out.old) (W.written out.new) (W.spare out.old) (W.spare out.new) (sent_text (sent_of_frame frame.now)) }
    ensures fits { (frame.now.epoch < 2 ^ 64) × (frame.now.after < 2 ^ 64) }
    ensures within { OnOk result (AllByRecursion IsChange frame.now.changes.items) }
{
    let (epoch, after) = (frame.epoch, frame.after);
    let size = body_len(frame.changes.as_slice()).unwrap();
    out.put_u8(1)?;
    put_numbers(&[epoch, frame.before, after, size], out)?;
    put_changes(frame.changes.as_slice(), out)
}

/// Puts numbers, each in eight bytes.
pub(crate) fn put_numbers<W: BufMut>(numbers: &[u64], out: &mut W) -> Result<(), AllocError>
    ensures { Puts result (W.written out.old) (W.written out.new) (W.spare out.old) (W.spare out.new) (flat_map long numbers.now) }
{
    for number in numbers {
        out.put_u64(*number)?;
    }
    Ok(())
}

fn put_changes<W: BufMut>(changes: &[Change], out: &mut W) -> Result<(), AllocError>
    ensures puts { Puts result (W.written out.old) (W.written out.new) (W.spare out.old) (W.spare out.new) (changes_text changes.now) }
    ensures within { OnOk result (AllByRecursion IsChange changes.now) }
{
    for change in changes {
        put_change(change, out)?;
    }
    Ok(())
}

fn put_change<W: BufMut>(change: &Change, out: &mut W) -> Result<(), AllocError>
    ensures puts { Puts result (W.written out.old) (W.written out.new) (W.spare out.old) (W.spare out.new) (change_text change.now) }
    ensures within { OnOk result (IsChange change.now) }
{
    match change {
        Change::Put(id, value) => put_record(id, value, out),
        Change::Drop(RecordId::Str(key)) => put_first(3, key, out),
        Change::Drop(RecordId::Field(key, field)) => {
            put_first(4, key, out)?;
            put_name(field, out)
        }
        Change::DropKey(key) => put_first(5, key, out),
        Change::Clear => out.put_u8(6),
    }
}

/// Puts the change that sets a record to a value.
pub(crate) fn put_record<W: BufMut>(
    id: &RecordId,
    value: &Value,
    out: &mut W,
) -> Result<(), AllocError>
    ensures puts { Puts result (W.written out.old) (W.written out.new) (W.spare out.old) (W.spare out.new) (change_text (Put id.now value.now)) }
    ensures within { OnOk result (IsChange (Put id.now value.now)) }
{
    match id {
        RecordId::Str(key) => {
            put_first(1, key, out)?;
            put_value(value, out)
        }
        RecordId::Field(key, field) => {
            put_first(2, key, out)?;
            put_name(field, out)?;
            put_value(value, out)
        }
    }
}

/// Puts the first byte of a change, and its key.
fn put_first<W: BufMut>(first: u8, key: &Key, out: &mut W) -> Result<(), AllocError>
    ensures puts { Puts result (W.written out.old) (W.written out.new) (W.spare out.old) (W.spare out.new) (first ∷ short_bytes key.now) }
    ensures within { OnOk result (length key.now ≤ MAX_KEY_BYTES) }
{
    out.put_u8(first)?;
    put_name(key, out)
}

/// Puts the length of a key or a field, and its bytes.
fn put_name<W: BufMut>(name: &Key, out: &mut W) -> Result<(), AllocError>
    ensures puts { Puts result (W.written out.old) (W.written out.new) (W.spare out.old) (W.spare out.new) (short_bytes name.now) }
    ensures within { length name.now ≤ MAX_KEY_BYTES }
{
    out.put_u16(name.len() as u16)?;
    out.put_slice(name.as_slice())
}

/// Puts the length of a value, and its bytes.
fn put_value<W: BufMut>(value: &Value, out: &mut W) -> Result<(), AllocError>
    ensures puts { Puts result (W.written out.old) (W.written out.new) (W.spare out.old) (W.spare out.new) (long_bytes value.now) }
    ensures within { length value.now ≤ MAX_VALUE_BYTES }
{
    out.put_u32(value.len() as u32)?;
    out.put_slice(value.as_slice())
}

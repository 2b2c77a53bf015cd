//! How many bytes are missing at least: of a number, by its bounds, and of a change, by its lengths that are there.
ghost use Rattle.std.specs.Prelude.{◌<◌};
ghost use Rattle.stream_codec.specs.Reading.{name_at, value_at, change_of, change_at};
ghost use Rattle.stream_codec.specs.Stepping.{after_end, size_end};
ghost use Rattle.stream_codec.specs.Scanning.{Waits, field_and_value_at};

use crate::change::{Body, Kind, count_at, kind_at, name_at};
use crate::reading::u16_at;
use kv_types::MAX_KEY_BYTES;

/// How many bytes of the position after a group are missing up to the first that can be too low: none can before the first of `least` that is not 0.
pub(crate) fn missing_of_after(bytes: &[u8], least: u64) -> u64
    ensures { Waits (after_end least) bytes.now result }
{
    let zeros = least.leading_zeros() / 8;
    (u64::from(zeros.min(7)) + 1).saturating_sub(bytes.len() as u64)
}

/// How many bytes of the length of a body are missing behind three zeros, where none can be too high, or 0.
pub(crate) fn missing_of_size(bytes: &[u8]) -> u64
    ensures { Waits size_end bytes.now result }
{
    if bytes.starts_with(&[0, 0, 0]) {
        8_u64.saturating_sub(bytes.len() as u64)
    } else {
        0
    }
}

/// How many bytes of a key or a field are missing, or 0 where its length is not there.
fn missing_of_name(bytes: &[u8], spare: u64) -> u64
    ensures { Waits (name_at spare) bytes.now result }
{
    match u16_at(bytes, spare.min(MAX_KEY_BYTES as u64)) {
        Ok((len, rest)) => len.saturating_sub(rest.len() as u64),
        Err(_) => 0,
    }
}

/// How many bytes of a value are missing, or 0 where its length is not there.
fn missing_of_value(body: Body, bytes: &[u8], spare: u64) -> u64
    ensures { Waits (value_at body spare) bytes.now result }
{
    match count_at(body, bytes, spare) {
        Ok((len, rest)) => len.saturating_sub(rest.len() as u64),
        Err(_) => 0,
    }
}

/// How many bytes of a field, or behind it of a value, are missing.
fn missing_of_field_and_value(body: Body, bytes: &[u8], spare: u64) -> u64
    ensures { Waits (field_and_value_at body spare) bytes.now result }
{
    match name_at(bytes, spare) {
        Ok((field, rest)) => missing_of_value(body, rest, spare - field.len() as u64),
        Err(_) => missing_of_name(bytes, spare),
    }
}

/// How many bytes of a change are missing, behind its first byte.
fn missing_behind(body: Body, bytes: &[u8], kind: Kind, spare: u64) -> u64
    ensures { Waits (change_of body kind spare) bytes.now result }
{
    match (kind, name_at(bytes, spare)) {
        (Kind::Clear, _) => 0,
        (_, Err(_)) => missing_of_name(bytes, spare),
        (Kind::PutString, Ok((key, rest))) => {
            missing_of_value(body, rest, spare - key.len() as u64)
        }
        (Kind::PutField, Ok((key, rest))) => {
            missing_of_field_and_value(body, rest, spare - key.len() as u64)
        }
        (Kind::DropField, Ok((key, rest))) => missing_of_name(rest, spare - key.len() as u64),
        (Kind::DropString | Kind::DropKey, Ok(_)) => 0,
    }
}

/// How many bytes of the change at the front are missing before it is more than short, whatever they are. Where a length is not all there, it
/// can be any number: 0.
pub(crate) fn missing_of_change(body: Body, bytes: &[u8], left: u64) -> u64
    ensures { Waits (change_at body left) bytes.now result }
{
    match kind_at(body, bytes, left) {
        Ok((kind, rest)) => missing_behind(body, rest, kind, left - kind.least_size()),
        Err(_) => 0,
    }
}

//! The change at the front of bytes, without copying it.
ghost use Rattle.std.specs.Prelude.{◌≡◌, ◌+◌, ◌-◌, ◌≤◌, length, option_map, IfOk};
ghost use Rattle.kv_types.specs.Reader.{Gives};
ghost use Rattle.stream_codec.specs.Reading.{kind_of, put_kind_of, kind_in, least_size, kind_at, name_at, put_count_at, count_at, value_at, change_of, change_at};
ghost use Rattle.stream_codec.specs.Message.{IsChange, put_of, put_in};
ghost use Rattle.stream_codec.specs.Shown.{shown};

use crate::message::LEAST_PUT_BYTES;
use crate::reading::{bytes_at, u16_at, u32_at, u32_of};
use cmd_core::stored;
use kv_types::{Change, MAX_KEY_BYTES, MAX_VALUE_BYTES, RecordId, Stop, Value};
use std::alloc::{AllocError, Global};

/// What a body holds.
#[derive(Clone, Copy, Debug, PartialEq, Eq)]
pub(crate) enum Body {
    /// Changes of any kind, as a group has them.
    Changes,
    /// Puts alone, as a part of a copy has them.
    Puts,
}

/// The kinds of changes.
#[derive(Clone, Copy, Debug, PartialEq, Eq)]
pub(crate) enum Kind {
    PutString,
    PutField,
    DropString,
    DropField,
    DropKey,
    Clear,
}

impl Kind {
    /// How many bytes a change of this kind has at least: its first byte and its lengths.
    pub fn least_size(self) -> u64
        ensures { result ≡ least_size self }
    {
        match self {
            Kind::PutString => 1 + 2 + 4,
            Kind::PutField => 1 + 2 + 2 + 4,
            Kind::DropString | Kind::DropKey => 1 + 2,
            Kind::DropField => 1 + 2 + 2,
            Kind::Clear => 1,
        }
    }
}

/// The kind of a change, by its first byte.
fn kind_of(byte: u8) -> Option<Kind>
    ensures { result ≡ kind_of byte }
{
    match byte {
        1 => Some(Kind::PutString),
        2 => Some(Kind::PutField),
        3 => Some(Kind::DropString),
        4 => Some(Kind::DropField),
        5 => Some(Kind::DropKey),
        6 => Some(Kind::Clear),
        _ => None,
    }
}

/// The kind of a put, by its first byte.
fn put_kind_of(byte: u8) -> Option<Kind>
    ensures { result ≡ put_kind_of byte }
{
    match byte {
        1 => Some(Kind::PutString),
        2 => Some(Kind::PutField),
        _ => None,
    }
}

/// The kind of what such a body holds, by its first byte.
fn kind_in(body: Body, byte: u8) -> Option<Kind>
    ensures { result ≡ kind_in body byte }
{
    match body {
        Body::Changes => kind_of(byte),
        Body::Puts => put_kind_of(byte),
    }
}

/// The kind of a change of at most `left` bytes.
pub(crate) fn kind_at(body: Body, bytes: &[u8], left: u64) -> Result<(Kind, &[u8]), Stop<()>>
    ensures { Gives (λ x. (x.0, x.1.now)) result (kind_at body left bytes.now) }
{
    match bytes.split_first() {
        None => Err(Stop::Short),
        Some((byte, rest)) => match kind_in(body, *byte) {
            Some(kind) if kind.least_size() <= left => Ok((kind, rest)),
            _ => Err(Stop::Broken(())),
        },
    }
}

/// A key or a field, where the names and the value of the change have at most `spare` bytes more.
pub(crate) fn name_at(bytes: &[u8], spare: u64) -> Result<(&[u8], &[u8]), Stop<()>>
    ensures { Gives (λ x. (x.0.now, x.1.now)) result (name_at spare bytes.now) }
{
    let (len, rest) = u16_at(bytes, spare.min(MAX_KEY_BYTES as u64))?;
    bytes_at(rest, len)
}

/// The length of the value that ends a put, where at most `spare` bytes are left for it. What it leaves of them is nothing, or enough for another put.
fn put_count_at(bytes: &[u8], spare: u64) -> Result<(u64, &[u8]), Stop<()>>
    ensures { Gives (λ x. (x.0, x.1.now)) result (put_count_at spare bytes.now) }
{
    if spare < LEAST_PUT_BYTES {
        return u32_of(bytes, spare);
    }
    let most = spare - LEAST_PUT_BYTES;
    if spare > MAX_VALUE_BYTES as u64 {
        return u32_at(bytes, most.min(MAX_VALUE_BYTES as u64));
    }
    match u32_at(bytes, most) {
        Ok(read) => Ok(read),
        Err(Stop::Short) => Err(Stop::Short),
        Err(Stop::Broken(())) => u32_of(bytes, spare),
    }
}

/// The length of a value, where at most `spare` bytes are left for it.
pub(crate) fn count_at(body: Body, bytes: &[u8], spare: u64) -> Result<(u64, &[u8]), Stop<()>>
    ensures { Gives (λ x. (x.0, x.1.now)) result (count_at body spare bytes.now) }
{
    match body {
        Body::Changes => u32_at(bytes, spare.min(MAX_VALUE_BYTES as u64)),
        Body::Puts => put_count_at(bytes, spare),
    }
}

/// A value, where at most `spare` bytes are left for it.
fn value_at(body: Body, bytes: &[u8], spare: u64) -> Result<(&[u8], &[u8]), Stop<()>>
    ensures { Gives (λ x. (x.0.now, x.1.now)) result (value_at body spare bytes.now) }
{
    let (len, rest) = count_at(body, bytes, spare)?;
    bytes_at(rest, len)
}

/// A change whose bytes are all there.
#[derive(Clone, Copy, Debug, Drop)]
pub(crate) enum RawChange<'a> {
    PutString(&'a [u8], &'a [u8]),
    PutField(&'a [u8], &'a [u8], &'a [u8]),
    DropString(&'a [u8]),
    DropField(&'a [u8], &'a [u8]),
    DropKey(&'a [u8]),
    Clear,
}

impl RawChange<'_> {
    /// The change, with copies of its bytes.
    pub fn to_change(self, alloc: Global) -> Result<Change, AllocError>
        requires { IsChange (shown self) }
        ensures { IfOk result (λ change. change ≡ shown self.entry) }
    {
        Ok(match self {
            RawChange::PutString(key, value) => Change::Put(
                RecordId::Str(stored(alloc, key)?),
                stored(alloc, value)?,
            ),
            RawChange::PutField(key, field, value) => {
                let id = RecordId::Field(stored(alloc, key)?, stored(alloc, field)?);
                Change::Put(id, stored(alloc, value)?)
            }
            RawChange::DropString(key) => Change::Drop(RecordId::Str(stored(alloc, key)?)),
            RawChange::DropField(key, field) => Change::Drop(RecordId::Field(
                stored(alloc, key)?,
                stored(alloc, field)?,
            )),
            RawChange::DropKey(key) => Change::DropKey(stored(alloc, key)?),
            RawChange::Clear => Change::Clear,
        })
    }

    /// The record and its value, with copies of their bytes, where the change is a put.
    pub fn to_put(self, alloc: Global) -> Result<Option<(RecordId, Value)>, AllocError>
        requires { IsChange (shown self) }
        ensures { IfOk result (λ found. option_map put_of found ≡ put_in (shown self.entry)) }
    {
        Ok(match self {
            RawChange::PutString(key, value) => Some((
                RecordId::Str(stored(alloc, key)?),
                stored(alloc, value)?,
            )),
            RawChange::PutField(key, field, value) => {
                let id = RecordId::Field(stored(alloc, key)?, stored(alloc, field)?);
                Some((id, stored(alloc, value)?))
            }
            RawChange::DropString(_)
            | RawChange::DropField(_, _)
            | RawChange::DropKey(_)
            | RawChange::Clear => None,
        })
    }
}

/// A change, behind its first byte.
fn change_of(
    body: Body,
    kind: Kind,
    spare: u64,
    bytes: &[u8],
) -> Result<(RawChange<'_>, &[u8]), Stop<()>>
    ensures { Gives (λ x. (shown x.0, x.1.now)) result (change_of body kind spare bytes.now) }
{
    match kind {
        Kind::PutString => {
            let (key, rest) = name_at(bytes, spare)?;
            let (value, rest) = value_at(body, rest, spare - key.len() as u64)?;
            Ok((RawChange::PutString(key, value), rest))
        }
        Kind::PutField => {
            let (key, rest) = name_at(bytes, spare)?;
            let spare = spare - key.len() as u64;
            let (field, rest) = name_at(rest, spare)?;
            let (value, rest) = value_at(body, rest, spare - field.len() as u64)?;
            Ok((RawChange::PutField(key, field, value), rest))
        }
        Kind::DropString => {
            let (key, rest) = name_at(bytes, spare)?;
            Ok((RawChange::DropString(key), rest))
        }
        Kind::DropField => {
            let (key, rest) = name_at(bytes, spare)?;
            let (field, rest) = name_at(rest, spare - key.len() as u64)?;
            Ok((RawChange::DropField(key, field), rest))
        }
        Kind::DropKey => {
            let (key, rest) = name_at(bytes, spare)?;
            Ok((RawChange::DropKey(key), rest))
        }
        Kind::Clear => Ok((RawChange::Clear, bytes)),
    }
}

/// The change at the front, of at most `left` bytes. It takes no memory, and looks at no byte of keys, fields and values.
#[tactic(auto, unfolding(crate::specs::Reading::change_at))]
pub(crate) fn change_at(
    body: Body,
    bytes: &[u8],
    left: u64,
) -> Result<(RawChange<'_>, &[u8]), Stop<()>>
    ensures { Gives (λ x. (shown x.0, x.1.now)) result (change_at body left bytes.now) }
{
    let (kind, rest) = kind_at(body, bytes, left)?;
    change_of(body, kind, left - kind.least_size(), rest)
}

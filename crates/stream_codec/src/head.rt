//! The numbers of the message at the front of bytes.
ghost use Rattle.std.specs.Prelude.{◌≡◌, ◌+◌, ◌-◌, ◌≤◌, length, IfOk};
ghost use Rattle.kv_types.specs.Reader.{Gives};
ghost use Rattle.stream_codec.specs.declared.head.HeadKind.TheVariants as head_kind;
ghost use Rattle.stream_codec.specs.Reading.{head_kind_of, head_kind_at, head_of, head_at};

use crate::message::{LEAST_PUT_BYTES, MAX_BODY_BYTES, MAX_PART_BYTES};
use crate::reading::u64_at;
use frames::Ack;
use kv_types::Stop;

/// The kinds of messages.
#[derive(Clone, Copy, Debug, PartialEq, Eq)]
pub(crate) enum HeadKind {
    Group,
    Ack,
    Wanted,
    Part,
    End,
}

/// All of a message but the changes of a group and the puts of a part.
#[derive(Clone, Copy, Debug, PartialEq, Eq)]
pub(crate) enum Head {
    /// The epoch, the positions before and after, and the length of the body.
    Group(u64, u64, u64, u64),
    Ack(Ack),
    /// Of a copy that is wanted: the epoch.
    Wanted(u64),
    /// Of a part: the epoch, the position, the number of the part, and the length of the body.
    Part(u64, u64, u64, u64),
    /// Of the end of a copy: the epoch, the position, and how many parts there are.
    End(u64, u64, u64),
}

/// The kind of a message, by its first byte.
fn head_kind_of(byte: u8) -> Option<HeadKind>
    ensures { result ≡ head_kind_of byte }
{
    match byte {
        1 => Some(HeadKind::Group),
        2 => Some(HeadKind::Ack),
        3 => Some(HeadKind::Wanted),
        4 => Some(HeadKind::Part),
        5 => Some(HeadKind::End),
        _ => None,
    }
}

/// The kind of the message at the front.
pub(crate) fn head_kind_at(bytes: &[u8]) -> Result<(HeadKind, &[u8]), Stop<()>>
    ensures { Gives (λ x. (x.0, x.1.now)) result (head_kind_at bytes.now) }
{
    match bytes.split_first() {
        None => Err(Stop::Short),
        Some((byte, rest)) => match head_kind_of(*byte) {
            Some(kind) => Ok((kind, rest)),
            None => Err(Stop::Broken(())),
        },
    }
}

/// The numbers of a message, behind its first byte.
fn head_of(kind: HeadKind, bytes: &[u8]) -> Result<(Head, &[u8]), Stop<()>>
    ensures { Gives (λ x. (x.0, x.1.now)) result (head_of kind bytes.now) }
{
    match kind {
        HeadKind::Group => {
            let (epoch, rest) = u64_at(bytes, 0, u64::MAX)?;
            let (before, rest) = u64_at(rest, 0, u64::MAX - 1)?;
            let (after, rest) = u64_at(rest, before + 1, u64::MAX)?;
            let (size, rest) = u64_at(rest, 0, MAX_BODY_BYTES)?;
            Ok((Head::Group(epoch, before, after, size), rest))
        }
        HeadKind::Ack => ack_at(bytes),
        HeadKind::Wanted => {
            let (epoch, rest) = u64_at(bytes, 0, u64::MAX)?;
            Ok((Head::Wanted(epoch), rest))
        }
        HeadKind::Part => {
            let (epoch, rest) = u64_at(bytes, 0, u64::MAX)?;
            let (position, rest) = u64_at(rest, 0, u64::MAX)?;
            let (number, rest) = u64_at(rest, 0, u64::MAX)?;
            let (size, rest) = u64_at(rest, LEAST_PUT_BYTES, MAX_PART_BYTES)?;
            Ok((Head::Part(epoch, position, number, size), rest))
        }
        HeadKind::End => {
            let (epoch, rest) = u64_at(bytes, 0, u64::MAX)?;
            let (position, rest) = u64_at(rest, 0, u64::MAX)?;
            let (parts, rest) = u64_at(rest, 0, u64::MAX)?;
            Ok((Head::End(epoch, position, parts), rest))
        }
    }
}

/// The numbers of an acknowledgement. No byte of theirs can break them.
fn ack_at(bytes: &[u8]) -> Result<(Head, &[u8]), Stop<()>>
    ensures { Gives (λ x. (x.0, x.1.now)) result (head_of head_kind.Ack bytes.now) }
{
    match bytes.split_first_chunk::<16>() {
        None => Err(Stop::Short),
        Some((numbers, rest)) => Ok((Head::Ack(Ack::read(numbers)), rest)),
    }
}

/// All of the message at the front but the changes of a group and the puts of a part.
#[tactic(auto, unfolding(crate::specs::Reading::head_at))]
pub(crate) fn head_at(bytes: &[u8]) -> Result<(Head, &[u8]), Stop<()>>
    ensures { Gives (λ x. (x.0, x.1.now)) result (head_at bytes.now) }
{
    let (kind, rest) = head_kind_at(bytes)?;
    head_of(kind, rest)
}

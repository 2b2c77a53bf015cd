//! A frame from its front to its end, one number or one change at a time.
ghost use Rattle.std.specs.Prelude.{◌≡◌, ◌+◌, ◌-◌, ◌<◌, length};
ghost use Rattle.kv_types.specs.Reader.{Gives};
ghost use Rattle.stream_codec.specs.declared.step.Next.TheVariants.{Changes, Numbers};
ghost use Rattle.stream_codec.specs.Stepping.{first_of, step_of, IsMore, is_more};

use crate::change::{Body, change_at};
use crate::head::{HeadKind, head_kind_at};
use crate::message::{LEAST_PUT_BYTES, MAX_BODY_BYTES, MAX_PART_BYTES};
use crate::reading::u64_at;
use kv_types::Stop;

/// What of a frame comes next. Of what was read before it holds what says where the frame ends.
#[derive(Clone, Copy, Debug, PartialEq, Eq)]
pub(crate) enum Next {
    /// The first byte.
    Kind,
    /// Of a group.
    Epoch,
    /// Of a group.
    Before,
    /// The position after a group, which is at least this.
    After(u64),
    /// The length of a group's body.
    Size,
    /// So many numbers, of which no byte breaks one. With none the frame has ended.
    Numbers(u64),
    /// Of a part of a copy.
    PartEpoch,
    /// Of a part of a copy.
    PartPosition,
    /// Which part of a copy it is.
    PartNumber,
    /// The length of a part's body.
    PartSize,
    /// Changes that have so many bytes together. With none the frame has ended.
    Changes(Body, u64),
}

impl Next {
    /// Whether the frame has more bytes.
    pub fn is_more(self) -> bool
        ensures { result ≡ is_more self }
    {
        match self {
            Next::Numbers(left) => left > 0,
            Next::Changes(_, left) => left > 0,
            _ => true,
        }
    }
}

/// What comes behind the first byte.
fn first_of(kind: HeadKind) -> Next
    ensures { result ≡ first_of kind }
{
    match kind {
        HeadKind::Group => Next::Epoch,
        HeadKind::Ack => Next::Numbers(2),
        HeadKind::Wanted => Next::Numbers(1),
        HeadKind::Part => Next::PartEpoch,
        HeadKind::End => Next::Numbers(3),
    }
}

/// Passes a change, and tells how many bytes of changes follow it.
fn pass_change(body: Body, bytes: &[u8], left: u64) -> Result<(Next, &[u8]), Stop<()>>
    ensures { Gives (λ x. (x.0, x.1.now)) result (step_of (Changes body left) bytes.now) }
{
    let (_, rest) = change_at(body, bytes, left)?;
    let size = (bytes.len() - rest.len()) as u64;
    Ok((Next::Changes(body, left - size), rest))
}

/// Passes a number that no byte breaks, of so many.
fn pass_number(bytes: &[u8], left: u64) -> Result<(Next, &[u8]), Stop<()>>
    requires { 0 < left }
    ensures { Gives (λ x. (x.0, x.1.now)) result (step_of (Numbers left) bytes.now) }
{
    let (_, rest) = u64_at(bytes, 0, u64::MAX)?;
    Ok((Next::Numbers(left - 1), rest))
}

/// Passes what comes next, and tells what follows it.
pub(crate) fn step_at(bytes: &[u8], next: Next) -> Result<(Next, &[u8]), Stop<()>>
    requires { IsMore next }
    ensures { Gives (λ x. (x.0, x.1.now)) result (step_of next bytes.now) }
{
    match next {
        Next::Kind => {
            let (kind, rest) = head_kind_at(bytes)?;
            Ok((first_of(kind), rest))
        }
        Next::Epoch => {
            let (_, rest) = u64_at(bytes, 0, u64::MAX)?;
            Ok((Next::Before, rest))
        }
        Next::Before => {
            let (before, rest) = u64_at(bytes, 0, u64::MAX - 1)?;
            Ok((Next::After(before + 1), rest))
        }
        Next::After(least) => {
            let (_, rest) = u64_at(bytes, least, u64::MAX)?;
            Ok((Next::Size, rest))
        }
        Next::Size => {
            let (size, rest) = u64_at(bytes, 0, MAX_BODY_BYTES)?;
            Ok((Next::Changes(Body::Changes, size), rest))
        }
        Next::Numbers(left) => pass_number(bytes, left),
        Next::PartEpoch => {
            let (_, rest) = u64_at(bytes, 0, u64::MAX)?;
            Ok((Next::PartPosition, rest))
        }
        Next::PartPosition => {
            let (_, rest) = u64_at(bytes, 0, u64::MAX)?;
            Ok((Next::PartNumber, rest))
        }
        Next::PartNumber => {
            let (_, rest) = u64_at(bytes, 0, u64::MAX)?;
            Ok((Next::PartSize, rest))
        }
        Next::PartSize => {
            let (size, rest) = u64_at(bytes, LEAST_PUT_BYTES, MAX_PART_BYTES)?;
            Ok((Next::Changes(Body::Puts, size), rest))
        }
        Next::Changes(body, left) => pass_change(body, bytes, left),
    }
}

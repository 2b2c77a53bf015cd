//! How far the frame at the front of bytes goes, without copying it.
ghost use Rattle.std.specs.Prelude.{◌≡◌, ◌≤◌, length};
ghost use Rattle.stream_codec.specs.Stepping.{IsMore, end_from};
ghost use Rattle.stream_codec.specs.Scanning.{IsAt, IsPass, IsLook, Waits};

use crate::missing::{missing_of_after, missing_of_change, missing_of_size};
use crate::step::{Next, step_at};
use kv_types::Stop;

/// A place in the frame at the front, up to which it was read.
#[derive(Clone, Copy, Debug, PartialEq, Eq)]
pub(crate) struct Progress {
    /// How many bytes of the frame were read.
    pub at: usize,
    /// What comes there.
    pub next: Next,
    /// How many bytes there must be before it is of use to look at them: with fewer the frame is begun, whatever they are.
    pub wanted: usize,
}

/// The first byte of a frame.
pub(crate) const START: Progress = Progress {
    at: 0,
    next: Next::Kind,
    wanted: 0,
};

/// How far a frame goes.
#[derive(Clone, Copy, Debug, Drop)]
enum Pass<'a> {
    /// It is all there, and these bytes follow it.
    Whole(&'a [u8]),
    /// This comes next, and these bytes begin it.
    Begun(Next, &'a [u8]),
    /// No continuation of the bytes is a frame.
    Broken,
}

/// Passes what of a frame is there, from what comes next on.
fn pass_on(bytes: &[u8], next: Next) -> Pass<'_>
    ensures { IsPass next bytes.now result }
{
    let mut next = next;
    let mut rest = bytes;
    while next.is_more() {
        match step_at(rest, next) {
            Ok((later, after)) => {
                next = later;
                rest = after;
            }
            Err(Stop::Short) => return Pass::Begun(next, rest),
            Err(Stop::Broken(())) => return Pass::Broken,
        }
    }
    Pass::Whole(rest)
}

/// How many bytes are missing before it is of use to look again: with fewer there is only the beginning of a frame, whatever they are.
fn missing_of(bytes: &[u8], next: Next) -> u64
    requires { IsMore next }
    ensures { Waits (end_from next) bytes.now result }
{
    match next {
        // No byte breaks most numbers; the position before a group is broken by its last byte alone.
        Next::Epoch | Next::PartPosition => 16_u64.saturating_sub(bytes.len() as u64),
        Next::Before | Next::PartNumber => 8_u64.saturating_sub(bytes.len() as u64),
        Next::PartEpoch => 24_u64.saturating_sub(bytes.len() as u64),
        Next::Numbers(left) => left.saturating_mul(8).saturating_sub(bytes.len() as u64),
        Next::Kind | Next::PartSize => 0,
        Next::After(least) => missing_of_after(bytes, least),
        Next::Size => missing_of_size(bytes),
        Next::Changes(body, left) => missing_of_change(body, bytes, left),
    }
}

/// What is at the front of bytes.
#[derive(Clone, Copy, Debug, Drop)]
pub(crate) enum Look<'a> {
    /// A whole frame, and these bytes follow it.
    Whole(&'a [u8]),
    /// The beginning of a frame.
    Begun(Progress),
    /// No continuation of the bytes is a frame.
    Broken,
}

/// Looks at the frame at the front from a place in it on: what was read before is not read again.
pub(crate) fn look_at(bytes: &[u8], progress: Progress) -> Look<'_>
    requires { IsAt bytes.now progress }
    ensures { IsLook bytes.now result }
{
    let (_, rest) = bytes.split_at(progress.at);
    match pass_on(rest, progress.next) {
        Pass::Whole(rest) => Look::Whole(rest),
        Pass::Begun(next, rest) => Look::Begun(Progress {
            at: bytes.len() - rest.len(),
            next,
            wanted: bytes.len().saturating_add(missing_of(rest, next) as usize),
        }),
        Pass::Broken => Look::Broken,
    }
}

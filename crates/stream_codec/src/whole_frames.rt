//! The whole frames at the front of bytes, with copies of what they hold.
ghost use Rattle.std.specs.Prelude.{◌≡◌, ◌≤◌, ℕ, List, length, map, option_map, Some, IfOk, Ok};
ghost use Rattle.kv_types.specs.declared.change.Change.{Change};
ghost use Rattle.stream_codec.specs.declared.change.Body.TheVariants as bodies;
ghost use Rattle.stream_codec.specs.Message.{Sent, put_of, sent_of};
ghost use Rattle.stream_codec.specs.Reading.{changes_at, message_at};
ghost use Rattle.stream_codec.specs.Scanning.{IsAt, IsSplit};

use crate::change::{Body, change_at};
use crate::head::{Head, head_at};
use crate::message::Message;
use crate::scan::{Look, Progress, START, look_at};
use frames::{CopyEnd, CopyPart, CopyWanted, Frame};
use kv_types::{Change, RecordId, Value};
use std::alloc::{AllocError, Global};

/// The changes that have `left` bytes together, if they are all there. Memory is taken for changes that came, never for a length.
fn read_changes(alloc: Global, bytes: &[u8], left: u64) -> Result<Vec<Change>, AllocError>
    ensures { IfOk result (λ v. (changes : List Change) (rest : List ℕ) →
        changes_at bodies.Changes left bytes.now ≡ Ok (changes, rest) → v.items ≡ changes) }
{
    let mut changes = Vec::new(alloc);
    let mut left = left;
    let mut rest = bytes;
    while left > 0 {
        match change_at(Body::Changes, rest, left) {
            Ok((change, after)) => {
                changes.push(change.to_change(alloc)?)?;
                left -= (rest.len() - after.len()) as u64;
                rest = after;
            }
            Err(_) => return Ok(changes),
        }
    }
    Ok(changes)
}

/// The puts that have `left` bytes together, if they are all there. Memory is taken for puts that came, never for a length.
fn read_puts(alloc: Global, bytes: &[u8], left: u64) -> Result<Vec<(RecordId, Value)>, AllocError>
    ensures { IfOk result (λ v. (changes : List Change) (rest : List ℕ) →
        changes_at bodies.Puts left bytes.now ≡ Ok (changes, rest) → map put_of v.items ≡ changes) }
{
    let mut puts = Vec::new(alloc);
    let mut left = left;
    let mut rest = bytes;
    while left > 0 {
        match change_at(Body::Puts, rest, left) {
            Ok((change, after)) => {
                let Some(put) = change.to_put(alloc)? else {
                    return Ok(puts);
                };
                puts.push(put)?;
                left -= (rest.len() - after.len()) as u64;
                rest = after;
            }
            Err(_) => return Ok(puts),
        }
    }
    Ok(puts)
}

/// The frame at the front, if all of it is there.
fn read_frame(alloc: Global, bytes: &[u8]) -> Result<Option<Message>, AllocError>
    ensures { IfOk result (λ found. (message : Sent) (rest : List ℕ) →
        message_at bytes.now ≡ Ok (message, rest) → option_map sent_of found ≡ Some message) }
{
    match head_at(bytes) {
        Ok((Head::Group(epoch, before, after, size), rest)) => {
            let changes = read_changes(alloc, rest, size)?;
            Ok(Some(Message::Group(Frame {
                epoch,
                before,
                after,
                changes,
            })))
        }
        Ok((Head::Ack(ack), _)) => Ok(Some(Message::Ack(ack))),
        Ok((Head::Wanted(epoch), _)) => Ok(Some(Message::CopyWanted(CopyWanted { epoch }))),
        Ok((Head::Part(epoch, position, number, size), rest)) => {
            let puts = read_puts(alloc, rest, size)?;
            Ok(Some(Message::CopyPart(CopyPart {
                epoch,
                position,
                number,
                puts,
            })))
        }
        Ok((Head::End(epoch, position, parts), _)) => Ok(Some(Message::CopyEnd(CopyEnd {
            epoch,
            position,
            parts,
        }))),
        Err(_) => Ok(None),
    }
}

/// Whole frames, and what follows them.
#[derive(Drop)]
pub(crate) struct Split<'a> {
    pub messages: Vec<Message>,
    /// A place in the frame that the rest begins, or `None` if no continuation of the rest is a frame.
    pub progress: Option<Progress>,
    pub rest: &'a [u8],
}

/// The whole frames at the front, where the first was looked at up to a place in it.
pub(crate) fn split_frames(
    alloc: Global,
    bytes: &[u8],
    progress: Progress,
) -> Result<Split<'_>, AllocError>
    requires { IsAt bytes.now progress }
    ensures { IfOk result (λ s. IsSplit bytes.now s.messages.items s.progress s.rest.now) }
{
    let mut messages = Vec::new(alloc);
    let mut rest = bytes;
    let mut progress = progress;
    loop {
        match look_at(rest, progress) {
            Look::Whole(after) => {
                let message = read_frame(alloc, rest)?.unwrap();
                messages.push(message)?;
                rest = after;
                progress = START;
            }
            Look::Begun(progress) => {
                return Ok(Split {
                    messages,
                    progress: Some(progress),
                    rest,
                });
            }
            Look::Broken => {
                return Ok(Split {
                    messages,
                    progress: None,
                    rest,
                });
            }
        }
    }
}

//! Frames that one read of a link brought are joined, as far as they follow one another, so that the standby takes them under one record, with one sync.
ghost use Rattle.std.specs.Prelude.{◌≡◌, ◌≤◌, ◌∷◌, IsTrue, IfOk, IfSome, OnOk, length, drop};
ghost use Rattle.frames.specs.Joining.{JoinsOn};
ghost use Rattle.stream_codec.specs.Scanning.{sent_of_all};
ghost use Rattle.stream_codec.specs.declared.message.Message.TheVariants.{Group};
ghost use Rattle.links.specs.Joining.{AreBegun, AreTold};

use frames::Frame;
use mv_keyspace::Keyspace;
use node_log::LinkError;
use standby::Standby;
use std::alloc::{AllocError, Global};
use stream_codec::Message;
use wbl_engine::Durable;

/// The most changes that frames which are joined have together. They lie in memory twice until they are taken.
const MAX_JOINED_CHANGES: usize = 4_096;

/// Frames as one.
#[derive(Drop)]
pub(crate) struct Joined {
    whole: Frame,
    /// How many they were.
    count: usize,
}

/// What the node is told of these messages: the frames at their beginning that follow one another as one frame, where the node takes that as it is; and else
/// each by itself. It changes nothing.
///
/// # Errors
///
/// `Refused(Memory)` if an allocation was refused.
pub(crate) fn join_frames<E: Durable, K: Keyspace>(
    alloc: Global,
    node: &mut Standby<E, K>,
    messages: Vec<Message>,
) -> Result<Vec<Message>, LinkError>
    ensures told { IfOk result (λ told. AreTold (E.contents node.old.engine).current node.old.heap (sent_of_all messages.items) (sent_of_all told.items)) }
    ensures same { node.new ≡ node.old }
{
    let joined = match join_first(&messages)? {
        Some(joined) => joined,
        None => return Ok(messages),
    };
    match node.takes_at_once(alloc, &joined.whole) {
        Ok(true) => Ok(put_first(alloc, messages, joined)?),
        Ok(false) => Ok(messages),
        Err(refusal) => Err(LinkError::Refused(refusal)),
    }
}

/// The messages with the joined frame in the place of those that it was made of.
fn put_first(
    alloc: Global,
    messages: Vec<Message>,
    joined: Joined,
) -> Result<Vec<Message>, AllocError>
    requires { joined.count ≤ length messages.items }
    ensures { IfOk result (λ told. told.items ≡ Group joined.whole ∷ drop joined.count messages.items) }
{
    let mut messages = messages;
    let mut later = messages.split_off(joined.count)?;
    let mut told = Vec::with_capacity(alloc, 1)?;
    told.push_reserved(Message::Group(joined.whole));
    told.append(&mut later)?;
    Ok(told)
}

/// The frames at the beginning that follow one another, if they are more than one.
fn join_first(messages: &Vec<Message>) -> Result<Option<Joined>, AllocError>
    ensures { IfOk result (λ found. IfSome found (λ joined. AreBegun messages.now.items joined)) }
{
    let mut joined = match begin(messages)? {
        Some(joined) => joined,
        None => return Ok(None),
    };
    for _ in 1..messages.len() {
        if !join_next(&mut joined, messages)? {
            return Ok(Some(joined));
        }
    }
    Ok(Some(joined))
}

/// The first message, if it is a frame and the second is one that goes with it.
fn begin(messages: &[Message]) -> Result<Option<Joined>, AllocError>
    ensures { IfOk result (λ found. IfSome found (λ joined. AreBegun messages.now joined)) }
{
    let first = match messages.first() {
        Some(Message::Group(first)) => first,
        _ => return Ok(None),
    };
    if !has_second(first, messages) {
        return Ok(None);
    }
    Ok(Some(Joined {
        whole: first.clone()?,
        count: 1,
    }))
}

/// Whether the second message is a frame that goes with the first one.
fn has_second(first: &Frame, messages: &[Message]) -> bool {
    match messages.get(1) {
        Some(Message::Group(next)) => goes_with(first, next),
        _ => false,
    }
}

/// Joins the next message, if it is a frame that goes with those before it. Answers whether it did.
fn join_next(joined: &mut Joined, messages: &[Message]) -> Result<bool, AllocError>
    ensures begun { AreBegun messages.now joined.old → OnOk result (AreBegun messages.now joined.new) }
{
    let next = match messages.get(joined.count) {
        Some(Message::Group(next)) => next,
        _ => return Ok(false),
    };
    if !goes_with(&joined.whole, next) {
        return Ok(false);
    }
    let mut copy = next.clone()?;
    joined.whole.join(&mut copy)?;
    joined.count += 1;
    Ok(true)
}

/// Whether the next frame follows the first, and both together have few changes.
fn goes_with(first: &Frame, next: &Frame) -> bool
    ensures { IsTrue result → JoinsOn first.now next.now }
{
    first.is_joined_by(next)
        && next.changes.len() <= MAX_JOINED_CHANGES
        && first.changes.len() <= MAX_JOINED_CHANGES - next.changes.len()
}

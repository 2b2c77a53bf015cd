//! Reading replies from the front of bytes.
ghost use Rattle.std.specs.Prelude.{◌≡◌, ◌+◌, ◌-◌, IfOk, option_map};
ghost use Rattle.kv_types.specs.Reader.{Gives, skipped};
ghost use Rattle.resp_codec.specs.ReplyReading.{reply_at};
ghost use Rattle.resp_codec.specs.GivesReplies.{head_read, most_at, read_in, IsFirstReply};

use crate::reply_heads::{Head, head_at};
use crate::reply_item::ReplyItem;
use crate::reply_limits::{REPLY_LIMITS, ReplyLimits};
use kv_types::{Listed, ProtocolFault, Reply, Stop};
use std::alloc::{AllocError, Global};

/// The most replies of an array at this depth.
fn most_at(limits: ReplyLimits, depth: u64) -> u64
    ensures { result ≡ most_at limits depth }
{
    if depth == 0 { 0 } else { limits.elements }
}

/// What follows the reply at the front, with arrays at most `depth` deep. Takes no memory.
fn reply_end(bytes: &[u8], limits: ReplyLimits, depth: u64) -> Result<&[u8], Stop<ProtocolFault>>
    ensures { Gives (λ rest. rest.now) result (skipped (reply_at limits depth bytes.now)) }
{
    let (head, after) = head_at(bytes, limits.bulk_bytes, most_at(limits, depth))?;
    let Head::Opens(count) = head else {
        return Ok(after);
    };
    let mut rest = after;
    for _i in 0..count {
        let Some(inner) = depth.checked_sub(1) else {
            return Err(Stop::Short);
        };
        rest = reply_end(rest, limits, inner)?;
    }
    Ok(rest)
}

/// A copy of the reply at the front and what follows it, or `None` if none is whole.
fn copy_reply(
    alloc: Global,
    bytes: &[u8],
    limits: ReplyLimits,
    depth: u64,
) -> Result<Option<(Reply, &[u8])>, AllocError>
    ensures { IfOk result (λ read. option_map (λ x. (x.0, x.1.now)) read ≡ read_in (reply_at limits depth bytes.now)) }
{
    let Ok((head, after)) = head_at(bytes, limits.bulk_bytes, most_at(limits, depth)) else {
        return Ok(None);
    };
    let count = match head {
        Head::Whole(plain) => return Ok(Some((plain.copy(alloc)?, after))),
        Head::Opens(count) => count,
    };
    let mut replies = Listed::new(alloc);
    let mut rest = after;
    for _i in 0..count {
        let Some(inner) = depth.checked_sub(1) else {
            return Ok(None);
        };
        let Some((reply, after)) = copy_reply(alloc, rest, limits, inner)? else {
            return Ok(None);
        };
        replies.push(reply)?;
        rest = after;
    }
    Ok(Some((Reply::Array(replies), rest)))
}

/// The first item of the bytes, if there is one, and the bytes after it.
pub(crate) fn first_reply(
    alloc: Global,
    bytes: &[u8],
) -> Result<(Option<ReplyItem>, &[u8]), AllocError>
    ensures { IfOk result (λ x. IsFirstReply bytes.now x.0 x.1.now) }
{
    match reply_end(bytes, REPLY_LIMITS, REPLY_LIMITS.depth) {
        Ok(_) => match copy_reply(alloc, bytes, REPLY_LIMITS, REPLY_LIMITS.depth)? {
            Some((reply, rest)) => Ok((Some(ReplyItem::Reply(reply)), rest)),
            None => unreachable!(),
        },
        Err(Stop::Short) => Ok((None, bytes)),
        Err(Stop::Broken(_fault)) => Ok((Some(ReplyItem::Fault), bytes)),
    }
}

//! Whether all that was asked for was answered.
ghost use Rattle.std.specs.Prelude.{◌≡◌, ◌∷◌, Ok, true};
ghost use Rattle.kv_types.specs.declared.reply.Reply.{Reply};
ghost use Rattle.model.specs.Call.{up_to_closing};
ghost use Rattle.resp_codec.specs.Parsing.{ahead};
ghost use Rattle.resp_codec.specs.ReplyParsing.{replies_ahead};
ghost use Rattle.resp_codec.specs.declared.reply_item.ReplyItem.TheVariants as item;
ghost use Rattle.server.specs.Served.{EachHasReply, asked_by, replies_in};

use bytes::Bytes;
use kv_types::Refusal;
use model::closes;
use resp_codec::{Parser, ReplyItem, ReplyParser};
use std::alloc::Global;

/// Whether a server's bytes have a whole reply to each request of a connection's bytes, up to and including one that closes it.
///
/// # Errors
///
/// Only `Memory`.
pub fn are_all_answered(alloc: Global, input: Bytes, replies: Bytes) -> Result<bool, Refusal>
    ensures { result ≡ Ok true → EachHasReply (asked_by input) (replies_in replies) }
{
    let mut asking = Parser::new(alloc);
    asking.feed(input)?;
    let mut answering = ReplyParser::new(alloc);
    answering.feed(replies)?;
    answers_rest(&mut asking, &mut answering)
}

/// Whether there is a whole reply to each request that is ahead, up to and including one that closes the connection.
fn answers_rest(asking: &mut Parser, answering: &mut ReplyParser) -> Result<bool, Refusal>
    ensures { result ≡ Ok true → EachHasReply (up_to_closing (ahead asking.old)) (replies_ahead answering.old) }
{
    while let Some(item) = asking.next()? {
        if !has_reply(answering)? {
            return Ok(false);
        }
        if closes(&item) {
            return Ok(true);
        }
    }
    Ok(true)
}

/// Whether a whole reply is next. It is taken.
fn has_reply(answering: &mut ReplyParser) -> Result<bool, Refusal>
    ensures { result ≡ Ok true → (reply : Reply) × (replies_ahead answering.old ≡ item.Reply reply ∷ replies_ahead answering.new) }
{
    match answering.next()? {
        Some(ReplyItem::Reply(_)) => Ok(true),
        Some(ReplyItem::Fault) | None => Ok(false),
    }
}

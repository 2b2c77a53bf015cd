//! Replies parsed from a server's bytes, in whatever pieces they come.
ghost use Rattle.std.specs.Prelude.{◌≡◌, [], IfOk, IfErr, OnOk, OnErr};
ghost use Rattle.kv_types.specs.declared.refusal.Refusal.TheVariants.{Memory};
ghost use Rattle.resp_codec.specs.declared.reply_item.ReplyItem.TheVariants.{Fault};
ghost use Rattle.resp_codec.specs.Parsing.{fed};
ghost use Rattle.resp_codec.specs.ReplyParsing.{replies_ahead, AdvancesReplies};

use crate::reply_item::ReplyItem;
use crate::reply_reading::first_reply;
use bytes::{Bytes, BytesMut};
use kv_types::Refusal;
use std::alloc::Global;
use std::marker::Model;

/// Reads replies from bytes that come in pieces, for a client. A clause sees the bytes that were fed and not yet given as items, or
/// `None` once a fault was given.
#[derive(Drop)]
pub struct ReplyParser {
    /// `None` once a fault was given: bytes are no longer read, so they are not kept either.
    unread: Option<BytesMut>,
}

impl Model for ReplyParser {
    ghost use Rattle.std.specs.Prelude.{ℕ, List, Option, option_map};

    ghost Value = { Option (List ℕ) };

    ghost view = { λ p. option_map (λ b. b.items) p.unread };
}

impl ReplyParser {
    /// A parser that has been fed nothing.
    pub fn new(alloc: Global) -> ReplyParser
        ensures { result ≡ Some [] }
    {
        ReplyParser {
            unread: Some(BytesMut::new(alloc)),
        }
    }

    /// Takes the next piece, of any bytes. After a fault it is ignored. Refused with 14 when out of memory, and then nothing of it is taken.
    pub fn feed(&mut self, piece: Bytes) -> Result<(), Refusal>
        ensures ok { OnOk result (self.new ≡ fed self.old piece) }
        ensures err { OnErr result (self.new ≡ self.old) }
        ensures cause { IfErr result (λ refusal. refusal ≡ Memory) }
    {
        if let Some(unread) = &mut self.unread {
            unread.extend_from_slice(piece.as_slice())?;
        }
        Ok(())
    }

    /// The next item, or `None` if the bytes fed hold no further whole reply. After a fault there are no more items. Refused with 14 when
    /// out of memory, and then nothing changed and the call may be repeated.
    pub fn next(&mut self) -> Result<Option<ReplyItem>, Refusal>
        // Whatever comes later, the item given is the first of those ahead, and the others are still ahead.
        ensures given { IfOk result (λ item. AdvancesReplies self.old item self.new) }

        // `None` only if nothing is ahead.
        ensures none { result ≡ Ok None → replies_ahead self.new ≡ [] }
        ensures fault { result ≡ Ok (Some Fault) → self.new ≡ None }
        ensures err { OnErr result (self.new ≡ self.old) }
        ensures cause { IfErr result (λ refusal. refusal ≡ Memory) }
    {
        let Some(unread) = &mut self.unread else {
            return Ok(None);
        };
        let alloc = *unread.allocator();
        let (item, rest) = first_reply(alloc, unread.as_slice())?;
        let taken = unread.len() - rest.len();
        unread.advance(taken);
        if let Some(ReplyItem::Fault) = &item {
            self.unread = None;
        }
        Ok(item)
    }
}

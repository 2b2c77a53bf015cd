//! What a parser of replies gives over any sequence of calls.
ghost use Rattle.std.specs.Prelude.{◌≡◌, ◌↔◌, ℕ, List, [], ◌++◌, map, flat_map, Option};
ghost use Rattle.std.specs.List.{AllByRecursion};
ghost use Rattle.kv_types.specs.declared.reply.Reply.{Reply};
ghost use Rattle.kv_types.specs.Reply.{text_of};
ghost use Rattle.resp_codec.specs.declared.reply_item.ReplyItem.{ReplyItem};
ghost use Rattle.resp_codec.specs.declared.reply_item.ReplyItem.TheVariants as item;
ghost use Rattle.resp_codec.specs.ReplyGrammar.{IsReadable, HoldsReplies};
ghost use Rattle.resp_codec.specs.ReplyParsing.{replies_ahead, ReachesReplies};
ghost use Rattle.resp_codec.specs.ReplyReading.{replies_at};

use crate::reply_limits::REPLY_LIMITS;

/// The texts of replies are read back as these replies, whatever bytes follow them.
pub fn replies_are_read_back()
    ensures { (replies : List Reply) (rest : List ℕ) → AllByRecursion (IsReadable REPLY_LIMITS) replies →
        replies_at REPLY_LIMITS (flat_map text_of replies ++ rest) ≡ map item.Reply replies ++ replies_at REPLY_LIMITS rest }
{}

/// The items computed from bytes are those that the bytes hold, their fault included, and they hold no others.
pub fn replies_are_held()
    ensures { (bytes : List ℕ) (items : List ReplyItem) → HoldsReplies REPLY_LIMITS bytes items ↔ (items ≡ replies_at REPLY_LIMITS bytes) }
{}

/// However the bytes are cut into pieces, and whenever items are asked for between the pieces: the items given are a prefix of those that
/// all the bytes fed hold, their fault included, and they are all of these if nothing is ahead, as when `next` answered `None`.
pub fn replies_in_any_pieces()
    ensures begins { (bytes : List ℕ) (given : List ReplyItem) (held : Option (List ℕ)) →
        ReachesReplies bytes given held → HoldsReplies REPLY_LIMITS bytes (given ++ replies_ahead held) }
    ensures all { (bytes : List ℕ) (given : List ReplyItem) (held : Option (List ℕ)) →
        ReachesReplies bytes given held → replies_ahead held ≡ [] → HoldsReplies REPLY_LIMITS bytes given }
{}

/// How long a reply may be that is read: an array within seven others may hold replies and one within eight is empty, an array has 4,294,967,295
/// replies at most, and a bulk string 536,870,912 bytes.
pub fn replies_are_bounded()
    ensures depth { REPLY_LIMITS.depth ≡ 8 }
    ensures elements { REPLY_LIMITS.elements ≡ 4294967295 }
    ensures bulk_bytes { REPLY_LIMITS.bulk_bytes ≡ 536870912 }
{}

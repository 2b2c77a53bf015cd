//! What a parser gives over any sequence of calls.
ghost use Rattle.std.specs.Prelude.{◌≡◌, ℕ, List, [], ◌++◌, Option};
ghost use Rattle.kv_types.specs.declared.item.Item.{Item};
ghost use Rattle.kv_types.specs.Request.{AsksFor};
ghost use Rattle.resp_codec.specs.Parsing.{ahead, Reaches};

use kv_types::REQUEST_LIMITS;

/// However the bytes are cut into pieces, and whenever items are asked for between the pieces: the items given are a prefix of those that
/// the grammar asks for in all the bytes fed, its fault included, and they are all of these if nothing is ahead, as when `next` answered `None`.
pub fn in_any_pieces()
    ensures begins { (text : List ℕ) (given : List Item) (held : Option (List ℕ)) →
        Reaches text given held → AsksFor REQUEST_LIMITS text (given ++ ahead held) }
    ensures all { (text : List ℕ) (given : List Item) (held : Option (List ℕ)) →
        Reaches text given held → ahead held ≡ [] → AsksFor REQUEST_LIMITS text given }
{}

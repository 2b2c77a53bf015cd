//! The bytes of a connection, and the items that they ask for.
ghost use Rattle.std.specs.Prelude.{◌≡◌, ◌||◌, [], Some, None, Ok, false, IfOk, IfErr, OnOk, OnErr, option_to_list};
ghost use Rattle.std.specs.List.{list_any};
ghost use Rattle.model.specs.Command.{closes};

use bytes::Bytes;
use kv_types::{Item, Refusal};
use model::closes;
use resp_codec::Parser;
use std::alloc::{AllocError, Global};

/// Gives the items that a connection's bytes ask for, in order, up to and including one that closes the connection.
#[derive(Drop)]
pub struct Inbound {
    parser: Parser,
    /// An item that was given closes the connection: none comes after it, and nothing more is read.
    is_closed: bool,
}

impl Clone for Inbound {
    ghost use Rattle.std.specs.Prelude.{◌≡◌};

    ghost is_clone = { λ inbound copy. copy ≡ inbound };

    fn clone(&self) -> Result<Inbound, AllocError> {
        Ok(Inbound {
            parser: self.parser.clone()?,
            is_closed: self.is_closed,
        })
    }
}

impl Inbound {
    ghost use Rattle.inbound.specs.ToCome.{with_piece, to_come, Advances};

    /// Nothing was fed, and nothing is closed.
    pub fn new(alloc: Global) -> Inbound
        ensures unread { result.parser ≡ Some [] }
        ensures is_open { result.is_closed ≡ false }
    {
        Inbound {
            parser: Parser::new(alloc),
            is_closed: false,
        }
    }

    /// Takes the next piece, of any bytes. Once an item has closed the connection it is let go.
    ///
    /// # Errors
    ///
    /// Only `Memory`. Nothing of the piece is taken then, and all is as before.
    pub fn feed(&mut self, piece: Bytes) -> Result<(), Refusal>
        ensures fed { OnOk result (self.new ≡ with_piece self.old piece) }
        ensures err { OnErr result (self.new ≡ self.old) }
        ensures cause { IfErr result (λ refusal. refusal ≡ Refusal.Memory) }
    {
        if self.is_closed {
            return Ok(());
        }
        self.parser.feed(piece)
    }

    /// The next item, or `None` if the bytes hold no further whole request, or an item has closed the connection.
    ///
    /// # Errors
    ///
    /// Only `Memory`. All is as before then, and the call may be repeated.
    pub fn next(&mut self) -> Result<Option<Item>, Refusal>
        // Whatever comes later, the item is the first of those to come, and the others are still to come.
        ensures given { IfOk result (λ item. Advances self.old item self.new) }
        ensures none { result ≡ Ok None → to_come self.new ≡ [] }
        ensures closed { IfOk result (λ item. self.new.is_closed ≡ (self.old.is_closed || list_any closes (option_to_list item))) }
        ensures err { OnErr result (self.new ≡ self.old) }
        ensures cause { IfErr result (λ refusal. refusal ≡ Refusal.Memory) }
    {
        if self.is_closed {
            return Ok(None);
        }
        let item = self.parser.next()?;
        self.is_closed = is_last(&item);
        Ok(item)
    }

    /// Whether an item that was given has closed the connection.
    pub fn is_closed(&self) -> bool
        ensures { result ≡ self.now.is_closed }
    {
        self.is_closed
    }
}

/// Whether there is an item, and it closes the connection.
fn is_last(item: &Option<Item>) -> bool
    ensures { result ≡ list_any closes (option_to_list item.now) }
{
    match item {
        Some(item) => closes(item),
        None => false,
    }
}

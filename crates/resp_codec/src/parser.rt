//! Requests parsed from a connection's bytes, in whatever pieces they come.
ghost use Rattle.std.specs.Prelude.{◌≡◌, [], IfOk, IfErr, OnOk, OnErr};
ghost use Rattle.kv_types.specs.declared.item.ProtocolFault.{ProtocolFault};
ghost use Rattle.kv_types.specs.declared.item.Item.TheVariants.{Fault};
ghost use Rattle.kv_types.specs.declared.refusal.Refusal.TheVariants.{Memory};
ghost use Rattle.resp_codec.specs.Parsing.{fed, ahead, Advances};

use crate::request_reading::Reading;
use bytes::Bytes;
use kv_types::{Item, Refusal};
use std::alloc::{AllocError, Global};
use std::marker::Model;

/// Reads items from bytes that come in pieces. A clause sees the bytes that were fed and not yet given as items, or `None` once a
/// fault was given.
#[derive(Drop)]
pub struct Parser {
    /// `None` once a fault was given: bytes are no longer read, so they are not kept either.
    reading: Option<Reading>,
}

impl Model for Parser {
    ghost use Rattle.std.specs.Prelude.{ℕ, List, Option, IfSome, option_map};
    ghost use Rattle.resp_codec.specs.RequestReading.{held, IsStanding};

    ghost Value = { Option (List ℕ) };

    ghost view = { λ p. option_map held p.reading };

    ghost invariant = { λ p. IfSome p.reading IsStanding };
}

impl Clone for Parser {
    ghost use Rattle.std.specs.Prelude.{◌≡◌};

    ghost is_clone = { λ parser copy. copy ≡ parser };

    fn clone(&self) -> Result<Parser, AllocError> {
        let Some(reading) = &self.reading else {
            return Ok(Parser { reading: None });
        };
        Ok(Parser {
            reading: Some(reading.copy()?),
        })
    }
}

impl Parser {
    /// A parser that has been fed nothing.
    pub fn new(alloc: Global) -> Parser
        ensures { result ≡ Some [] }
    {
        Parser {
            reading: Some(Reading::new(alloc)),
        }
    }

    /// Takes the next piece, of any bytes. After a fault it is ignored. Refused with 14 when out of memory, and then nothing of it is taken.
    pub fn feed(&mut self, piece: Bytes) -> Result<(), Refusal>
        ensures ok { OnOk result (self.new ≡ fed self.old piece) }
        ensures err { OnErr result (self.new ≡ self.old) }
        ensures cause { IfErr result (λ refusal. refusal ≡ Memory) }
    {
        if let Some(reading) = &mut self.reading {
            reading.feed(piece)?;
        }
        Ok(())
    }

    /// The next item, or `None` if the bytes fed hold no further whole request. `*0` asks for nothing and is skipped. After a fault
    /// there are no more items. Refused with 14 when out of memory, and then nothing changed and the call may be repeated.
    pub fn next(&mut self) -> Result<Option<Item>, Refusal>
        // Whatever comes later, the item given is the first of those ahead, and the others are still ahead.
        ensures given { IfOk result (λ item. Advances self.old item self.new) }

        // `None` only if nothing is ahead.
        ensures none { result ≡ Ok None → ahead self.new ≡ [] }
        ensures fault { (fault : ProtocolFault) → result ≡ Ok (Some (Fault fault)) → self.new ≡ None }
        ensures err { OnErr result (self.new ≡ self.old) }
        ensures cause { IfErr result (λ refusal. refusal ≡ Memory) }
    {
        let Some(reading) = &mut self.reading else {
            return Ok(None);
        };
        let item = reading.next()?;
        if let Some(Item::Fault(_)) = &item {
            self.reading = None;
        }
        Ok(item)
    }
}

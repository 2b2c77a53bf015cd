//! What comes in from a connection, up to the sequencer.
ghost use Rattle.std.specs.Prelude.{◌≡◌, ◌<◌, false, length, take, IfOk, IfErr, OnOk, OnErr};
ghost use Rattle.machine.specs.Connection.{Inbound as Machine};
ghost use Rattle.inbound.specs.ToCome.{GivesAll};

use bytes::Bytes;
use inbound::Inbound;
use kv_types::{Item, Refusal};
use pipes::{LocalPipe, Outlet, PIPE_ITEMS};
use std::alloc::{AllocError, Global};
use std::collections::VecDeque;

/// What the bytes of a connection ask for. All of it is taken from the bytes as soon as they come.
#[derive(Drop)]
pub(crate) struct Asking {
    pub(crate) source: Inbound,
    /// The items that were asked for and not run. The first of them wait in the pipe.
    pub(crate) asked: VecDeque<Item>,
    /// Clones of those that wait for the sequencer.
    pub(crate) waiting: LocalPipe<Item>,
}

impl Asking {
    ghost use Rattle.connections.specs.Asking.{AskingRefines, Feeds, Offers};
    ghost use Rattle.machine.specs.Connection.{no_connection};

    pub(crate) fn new(alloc: Global) -> Result<Asking, AllocError>
        ensures { IfOk result (λ asking. AskingRefines asking no_connection.inbound) }
    {
        Ok(Asking {
            source: Inbound::new(alloc),
            asked: VecDeque::new(alloc),
            waiting: LocalPipe::new(alloc)?,
        })
    }

    /// Takes a piece of the connection's bytes, unless an item closed it. Returns whether it did.
    pub(crate) fn feed(&mut self, piece: &Bytes) -> Result<bool, Refusal>
        ensures feeds { IfOk result (λ did. (machine : Machine) → AskingRefines self.old machine → Feeds piece.now self.new did machine) }
        ensures cause { IfErr result (λ refusal. refusal ≡ Refusal.Memory) }
        ensures open { OnErr result (self.old.source.is_closed ≡ false) }
        ensures same { OnErr result ((machine : Machine) → AskingRefines self.old machine → AskingRefines self.new machine) }
    {
        if self.source.is_closed() {
            return Ok(false);
        }
        // A clone takes the piece, so that nothing of it is taken where one of its items is refused.
        let mut tried = self.source.clone()?;
        tried.feed(piece.clone()?)?;
        take_all(&mut tried, &mut self.asked)?;
        self.source = tried;
        Ok(true)
    }

    /// Hands the next item to the sequencer, if there is one and there is room for it. Returns whether it did.
    pub(crate) fn offer(&mut self) -> Result<bool, Refusal>
        ensures offers { IfOk result (λ did. (machine : Machine) → AskingRefines self.old machine → Offers self.new did machine) }
        ensures cause { IfErr result (λ refusal. refusal ≡ Refusal.Memory) }
        ensures some { OnErr result (length self.old.waiting.items < length self.old.asked.items) }
        ensures room { OnErr result (length self.old.waiting.items < PIPE_ITEMS) }
        ensures same { OnErr result (self.new ≡ self.old) }
    {
        let count = self.waiting.len();
        if count == PIPE_ITEMS {
            return Ok(false);
        }
        match self.asked.get(count) {
            Some(item) => {
                let item = item.clone()?;
                let _ = self.waiting.offer(item);
                Ok(true)
            }
            None => Ok(false),
        }
    }
}

/// Takes all items that are to come, or none of them.
fn take_all(inbound: &mut Inbound, asked: &mut VecDeque<Item>) -> Result<(), Refusal>
    ensures gives { OnOk result (GivesAll asked.old.items asked.new.items inbound.old inbound.new) }
    ensures none { OnErr result (asked.new.items ≡ asked.old.items) }
    ensures cause { IfErr result (λ refusal. refusal ≡ Refusal.Memory) }
{
    let count = asked.len();
    let taken = drain(inbound, asked);
    if taken.is_err() {
        asked.truncate(count);
    }
    taken
}

/// Takes the items that are to come, one after another. What was taken before a refusal stays, behind the items that were there.
fn drain(inbound: &mut Inbound, asked: &mut VecDeque<Item>) -> Result<(), Refusal>
    ensures gives { OnOk result (GivesAll asked.old.items asked.new.items inbound.old inbound.new) }
    ensures behind { OnErr result (take (length asked.old.items) asked.new.items ≡ asked.old.items) }
    ensures cause { IfErr result (λ refusal. refusal ≡ Refusal.Memory) }
{
    while let Some(item) = inbound.next()? {
        asked.push_back(item)?;
    }
    Ok(())
}

//! From a connection's bytes to the items of its ring.
ghost use Rattle.std.specs.Prelude.{◌≡◌, ℕ, List, [], ◌++◌, ◌∷◌, ◌<◌, Ok, true, false, length, IsSome, IsTrue, ◌↔◌, IfOk, OnOk, OnErr, IfErr};
ghost use Rattle.std.specs.Io.KnownBytes.{IsAtEnd};
ghost use Rattle.kv_types.specs.declared.item.Item.{Item};
ghost use Rattle.clients.specs.Asked.{asked_by};
ghost use Rattle.clients.specs.Reader.{owed, Offers, Reads, OffersFor};
ghost use Rattle.clients.specs.Reader as spec;

use crate::block::Block;
use crate::broken_off::BrokenOff;
use crate::read_ahead::ReadAhead;
use crate::signals::Signals;
use bytes::Bytes;
use inbound::Inbound;
use kv_types::Item;
use pipes::Outlet;
use std::alloc::{AllocError, Global};
use std::io::Read;

/// How many blocks are read of one connection before others have their turn.
pub const TURN_BLOCKS: usize = 4;

/// How far a reader came.
#[derive(Clone, Copy, Debug, PartialEq, Eq)]
pub enum Progress {
    /// All that can be read now was read.
    Drained,
    /// There may be more to read.
    More,
    /// An item waits for room in its ring.
    Full,
    /// The peer has closed the connection, or one of its items has.
    Ended,
}

/// What was read after the last item.
#[derive(Clone, Copy, Debug, PartialEq, Eq)]
pub enum LastPiece {
    /// Bytes. There may be more.
    Bytes,
    /// There are none now.
    NoneNow,
    /// The peer's end.
    End,
}

/// Reads a connection, and offers the items that its bytes ask for. It waits for nothing: what cannot be done now is done in a later turn.
#[derive(Drop)]
pub struct RequestReader {
    inbound: Inbound,
    block: Block,
    /// An item that found no room. It is offered before all that come after it.
    held: Option<Item>,
    /// How many items were offered, modulo 2^64.
    offered: u64,
    /// How far it reads ahead of the thread that serves.
    ahead: ReadAhead,
    /// Whether a turn came to the end of the requests, or broke off.
    is_done: bool,
}

impl RequestReader {
    /// Nothing was read yet.
    ///
    /// # Errors
    ///
    /// Only `AllocError`.
    pub fn new(alloc: Global) -> Result<RequestReader, AllocError>
        ensures fresh { IfOk result (λ reader. (bytes : List ℕ) → owed reader bytes ≡ asked_by bytes) }
    {
        Ok(RequestReader {
            inbound: Inbound::new(alloc),
            block: Block::new(alloc)?,
            held: None,
            offered: 0,
            ahead: ReadAhead::new(),
            is_done: false,
        })
    }

    /// Whether an item waits for room.
    pub fn is_held(&self) -> bool
        ensures { IsTrue result ↔ IsSome self.now.held }
    {
        self.held.is_some()
    }

    /// How many items were offered so far, modulo 2^64.
    pub(crate) fn offered(&self) -> u64 {
        self.offered
    }

    /// One turn: reads what is there, up to `TURN_BLOCKS`, and offers the items that the bytes ask for, in order, up to one that closes the connection or
    /// finds no room. That one is held, and nothing is read until it is offered.
    ///
    /// # Errors
    ///
    /// Why it broke off. What was offered stays offered.
    pub fn read<S: Read, O: Outlet<Item = Item>>(
        &mut self,
        stream: &mut S,
        outlet: &mut O,
        signals: &Signals,
    ) -> Result<Progress, BrokenOff>
        requires may { (other : O) (item : Item) → O.is_same outlet.old other → O.may_offer other item }
        ensures reads { OnOk result (Reads (S.remaining stream.old) (S.remaining stream.new) self.old self.new (O.offered outlet.old) (O.offered outlet.new)) }
        ensures offers { OffersFor self.old self.new (O.offered outlet.old) (O.offered outlet.new) }
        ensures all { IfOk result (λ progress. (progress ≡ Progress.Full → ⊥) → owed self.new [] ≡ []) }
        ensures end { IfOk result (λ progress. progress ≡ Progress.Ended → self.new.inbound.is_closed ≡ false → IsAtEnd (S.remaining stream.new)) }
        ensures done { spec.is_last result ≡ true → self.new.is_done ≡ true }
        ensures goes_on { spec.is_last result ≡ false → self.new.is_done ≡ self.old.is_done }
        ensures same { O.is_same outlet.old outlet.new }
    {
        let progress = self.read_blocks(stream, outlet, signals);
        if is_last(&progress) {
            self.is_done = true;
        }
        progress
    }

    /// The same, of which nothing is noted.
    fn read_blocks<S: Read, O: Outlet<Item = Item>>(
        &mut self,
        stream: &mut S,
        outlet: &mut O,
        signals: &Signals,
    ) -> Result<Progress, BrokenOff>
        requires may { (other : O) (item : Item) → O.is_same outlet.old other → O.may_offer other item }
        ensures reads { OnOk result (Reads (S.remaining stream.old) (S.remaining stream.new) self.old self.new (O.offered outlet.old) (O.offered outlet.new)) }
        ensures offers { OffersFor self.old self.new (O.offered outlet.old) (O.offered outlet.new) }
        ensures all { IfOk result (λ progress. (progress ≡ Progress.Full → ⊥) → owed self.new [] ≡ []) }
        ensures end { IfOk result (λ progress. progress ≡ Progress.Ended → self.new.inbound.is_closed ≡ false → IsAtEnd (S.remaining stream.new)) }
        ensures done { self.new.is_done ≡ self.old.is_done }
        ensures same { O.is_same outlet.old outlet.new }
    {
        let mut progress = self.offer_all(outlet, signals)?;
        for _ in 0..TURN_BLOCKS {
            if progress != Progress::More {
                return Ok(progress);
            }
            progress = self.read_next(stream, outlet, signals)?;
        }
        Ok(progress)
    }

    /// Reads once, unless it is too far ahead of the thread that serves, and then it waits as for room.
    fn read_next<S: Read, O: Outlet<Item = Item>>(
        &mut self,
        stream: &mut S,
        outlet: &mut O,
        signals: &Signals,
    ) -> Result<Progress, BrokenOff>
        requires may { (other : O) (item : Item) → O.is_same outlet.old other → O.may_offer other item }
        requires none_owed { owed self.old [] ≡ [] }
        ensures reads { OnOk result (Reads (S.remaining stream.old) (S.remaining stream.new) self.old self.new (O.offered outlet.old) (O.offered outlet.new)) }
        ensures offers { OffersFor self.old self.new (O.offered outlet.old) (O.offered outlet.new) }
        ensures all { IfOk result (λ progress. (progress ≡ Progress.Full → ⊥) → owed self.new [] ≡ []) }
        ensures end { IfOk result (λ progress. progress ≡ Progress.Ended → self.new.inbound.is_closed ≡ false → IsAtEnd (S.remaining stream.new)) }
        ensures done { self.new.is_done ≡ self.old.is_done }
        ensures same { O.is_same outlet.old outlet.new }
    {
        if !self.ahead.next(self.offered, outlet, signals) {
            return full(signals);
        }
        self.read_block(stream, outlet, signals)
    }

    /// Reads once, and offers all that the bytes ask for. Nothing is held.
    fn read_block<S: Read, O: Outlet<Item = Item>>(
        &mut self,
        stream: &mut S,
        outlet: &mut O,
        signals: &Signals,
    ) -> Result<Progress, BrokenOff>
        requires may { (other : O) (item : Item) → O.is_same outlet.old other → O.may_offer other item }
        requires none_owed { owed self.old [] ≡ [] }
        ensures reads { OnOk result (Reads (S.remaining stream.old) (S.remaining stream.new) self.old self.new (O.offered outlet.old) (O.offered outlet.new)) }
        ensures offers { OffersFor self.old self.new (O.offered outlet.old) (O.offered outlet.new) }
        ensures all { IfOk result (λ progress. (progress ≡ Progress.Full → ⊥) → owed self.new [] ≡ []) }
        ensures end { IfOk result (λ progress. progress ≡ Progress.Ended → self.new.inbound.is_closed ≡ false → IsAtEnd (S.remaining stream.new)) }
        ensures done { self.new.is_done ≡ self.old.is_done }
        ensures same { O.is_same outlet.old outlet.new }
    {
        let room = self.block.make_room()?;
        let Some(piece) = self.block.read(stream)? else {
            return Ok(Progress::Drained);
        };
        if piece.is_empty() {
            return Ok(Progress::Ended);
        }
        let is_short = piece.len() < room;
        self.inbound.feed(piece)?;
        let progress = self.offer_all(outlet, signals)?;
        Ok(after_block(progress, is_short))
    }

    /// Offers all items that are to come, in order, and holds the first that finds no room. There is more to read unless one was held, or one closed the
    /// connection.
    fn offer_all<O: Outlet<Item = Item>>(
        &mut self,
        outlet: &mut O,
        signals: &Signals,
    ) -> Result<Progress, BrokenOff>
        requires may { (other : O) (item : Item) → O.is_same outlet.old other → O.may_offer other item }
        ensures offers { Offers self.old self.new (O.offered outlet.old) (O.offered outlet.new) }
        ensures all { IfOk result (λ progress. (progress ≡ Progress.Full → ⊥) → owed self.new [] ≡ []) }
        ensures end { IfOk result (λ progress. progress ≡ Progress.Ended → self.new.inbound.is_closed ≡ true) }
        ensures done { self.new.is_done ≡ self.old.is_done }
        ensures same { O.is_same outlet.old outlet.new }
    {
        while self.hold_next()? {
            if !self.offer_held(outlet, signals) {
                return full(signals);
            }
        }
        if self.inbound.is_closed() {
            Ok(Progress::Ended)
        } else {
            Ok(Progress::More)
        }
    }

    /// Holds the next item that is to come, unless one is held. Says whether one is held then.
    fn hold_next(&mut self) -> Result<bool, BrokenOff>
        ensures owes { (more : List ℕ) → owed self.old more ≡ owed self.new more }
        ensures held { IfOk result (λ is. is ≡ true → IsSome self.new.held) }
        ensures none { result ≡ Ok false → owed self.new [] ≡ [] }
        ensures done { self.new.is_done ≡ self.old.is_done }
    {
        if self.held.is_none() {
            self.held = self.inbound.next()?;
        }
        Ok(self.held.is_some())
    }

    /// Offers the item that is held. Where there is no room, it stays held.
    fn offer_held<O: Outlet<Item = Item>>(&mut self, outlet: &mut O, signals: &Signals) -> bool
        requires may { (other : O) (item : Item) → O.is_same outlet.old other → O.may_offer other item }
        requires held { IsSome self.old.held }
        ensures offers { Offers self.old self.new (O.offered outlet.old) (O.offered outlet.new) }
        ensures less { result ≡ true → length (owed self.new []) < length (owed self.old []) }
        ensures done { self.new.is_done ≡ self.old.is_done }
        ensures same { O.is_same outlet.old outlet.new }
    {
        let Some(item) = self.held.take() else {
            return false;
        };
        match offer_twice(outlet, item, signals) {
            Ok(()) => {
                self.offered = self.offered.wrapping_add(1);
                true
            }
            Err(back) => {
                self.held = Some(back);
                false
            }
        }
    }

    /// Reads once, and lets the bytes go.
    ///
    /// # Errors
    ///
    /// Why nothing more can be read.
    pub fn let_go<S: Read>(&mut self, stream: &mut S) -> Result<LastPiece, BrokenOff> {
        self.block.make_room()?;
        let piece = self.block.read(stream)?;
        Ok(last_piece(piece))
    }
}

fn last_piece(piece: Option<Bytes>) -> LastPiece {
    match piece {
        None => LastPiece::NoneNow,
        Some(bytes) if bytes.is_empty() => LastPiece::End,
        Some(_) => LastPiece::Bytes,
    }
}

/// Whether nothing more is asked of a reader after this.
fn is_last(progress: &Result<Progress, BrokenOff>) -> bool
    ensures { result ≡ spec.is_last progress.now }
{
    match progress {
        Ok(progress) => *progress == Progress::Ended,
        Err(_) => true,
    }
}

/// An item waits for room. Where the thread that serves has left the connection, it waits in vain.
fn full(signals: &Signals) -> Result<Progress, BrokenOff>
    ensures { IfOk result (λ progress. progress ≡ Progress.Full) }
{
    match signals.has_left() {
        Some(left) => Err(BrokenOff::Over(left)),
        None => Ok(Progress::Full),
    }
}

/// A read that did not fill the room has drained the socket.
fn after_block(progress: Progress, is_short: bool) -> Progress
    ensures full { (result ≡ Progress.Full → ⊥) → progress ≡ Progress.Full → ⊥ }
    ensures ended { result ≡ Progress.Ended → progress ≡ Progress.Ended }
{
    match progress {
        Progress::More if is_short => Progress::Drained,
        progress => progress,
    }
}

/// Offers an item, and where there is no room says that the reader waits for it and offers the item once more. So whoever makes room after
/// the second try sees that the reader waits.
fn offer_twice<O: Outlet<Item = Item>>(
    outlet: &mut O,
    item: Item,
    signals: &Signals,
) -> Result<(), Item>
    requires may { O.may_offer outlet.old item }
    ensures last { OnOk result (O.offered outlet.new ≡ O.offered outlet.old ++ item ∷ []) }
    ensures returned { IfErr result (λ back. back ≡ item) }
    ensures unchanged { OnErr result (O.offered outlet.new ≡ O.offered outlet.old) }
    ensures same { O.is_same outlet.old outlet.new }
{
    match outlet.offer(item) {
        Ok(()) => Ok(()),
        Err(back) => {
            signals.wait_for_room();
            outlet.offer(back)
        }
    }
}

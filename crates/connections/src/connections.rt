//! The connections, of whose items the sequencer makes the one list of calls.
ghost use Rattle.std.specs.Prelude.{◌≡◌, ◌≢◌, ℕ, ◌+◌, ◌<◌, ◌∷◌, ◌++◌, [], true, false, List, length, None, Some, map, IfOk, IfErr, IfNone, IfSome, IsSome, OnOk, OnErr, vec_len, vec_capacity};
ghost use Rattle.kv_types.specs.declared.item.Item.{Item};
ghost use Rattle.model.specs.declared.call.Call.{Call};
ghost use Rattle.model.specs.Call.{cut_at};
ghost use Rattle.model.specs.declared.group.TheConstants.{MAX_PARTS};
ghost use Rattle.machine.specs.Connection.{Connection as Machine, may_enter, may_feed, may_hold, may_offer, may_release, may_write, is_open_at, new_connection, changed_at, with_inbound, with_outbound, fed_with, offered_next, held_first, having_seen, having_released, written, left};
ghost use Rattle.redis_core.specs.Sequencing.{MovesSeat, is_closed};
ghost use Rattle.redis_core.specs.Turn.{call_of};
ghost use Rattle.multi_watch.specs.Session.{idle_session};
ghost use Rattle.connections.specs.Asking.{AskingRefines};
ghost use Rattle.connections.specs.Going.{Goes};
ghost use Rattle.connections.specs.Outbound.{OutboundRefines};
ghost use Rattle.connections.specs.Running.{Runs};
ghost use Rattle.connections.specs.Session.{SessionsRefine, TranscriptRefines, SequencerRefines, SeatsRefine, SeatsFollow, IsListOf, StandsStill, HasSeat, KeepsSeats, AddsOne, TakesTurn, TellsTheSame, seats_of};
ghost use Rattle.connections.specs.declared.transcript.Transcript.{Transcript};

use crate::asking::Asking;
use crate::connection::{Client, Connection};
use crate::outbound::{Made, Outbound};
use crate::transcript::Transcript;
use bytes::Bytes;
use kv_types::{Held, Item, Refusal, Seen};
use lobby::Lobby;
use machine::Mark;
use model::Call;
use mv_keyspace::Keyspace;
use pipes::{Inlet, LocalPipe, Outlet, PIPE_ITEMS, Seat};
use primary::Front;
use redis_core::Turn;
use std::alloc::Global;
use std::collections::VecDeque;

/// All connections in the order in which they entered. What was called and released is the caller's (`Transcript`).
#[derive(Drop)]
pub struct Connections {
    lobby: Lobby,
    connections: Vec<Connection>,
    /// Where a turn leaves its reply. It is empty between two calls.
    replies: LocalPipe<Held>,
}

impl Connections {
    /// No connection.
    ///
    /// # Errors
    ///
    /// `Memory` alone, where the room of the lobby or of the pipe of replies was refused.
    pub fn new(alloc: Global) -> Result<Connections, Refusal>
        ensures stands { IfOk result (λ sessions. (transcript : Transcript) → TranscriptRefines transcript [] [] → SessionsRefine sessions transcript [] []) }
        ensures cause { IfErr result (λ refusal. refusal ≡ Refusal.Memory) }
    {
        Ok(Connections {
            lobby: Lobby::new(alloc)?,
            connections: Vec::new(alloc),
            replies: LocalPipe::new(alloc)?,
        })
    }

    /// Gives a new connection a seat, if one is free. Returns whether it did. Connections count from 0, in the order in which they enter.
    ///
    /// # Errors
    ///
    /// `Memory` alone, where a seat is free and the room of the connection was refused. All is as before, in the sequencer too.
    pub fn enter<K: Keyspace>(
        &mut self,
        alloc: Global,
        transcript: &mut Transcript,
        front: &mut Front<K>,
    ) -> Result<bool, Refusal>
        ensures goes { IfOk result (λ did. (machines : List Machine) (list : List Call) → SessionsRefine self.old transcript.old machines list
            → Goes (may_enter machines) did (SessionsRefine self.new transcript.new (machines ++ new_connection ∷ []) list) (SessionsRefine self.new transcript.new machines list)) }
        // The sequencer finds the seat open and its session idle, whatever the connection before left there.
        ensures follow { IfOk result (λ did. (machines : List Machine) (list : List Call) → IsListOf machines list → SessionsRefine self.old transcript.old machines list
            → SeatsFollow list (seats_of self.old.connections.items) front.old.sequencer → SeatsFollow list (seats_of self.new.connections.items) front.new.sequencer) }
        ensures connections { OnErr result (self.new.connections.items ≡ self.old.connections.items) }
        ensures unmoved { OnErr result (front.new.sequencer ≡ front.old.sequencer) }
        ensures sequencer { (calls : List Call) (closed : ℕ) → SequencerRefines calls closed front.old.sequencer → SequencerRefines calls closed front.new.sequencer }
        ensures stands { StandsStill front.old.sequencer front.new.sequencer }
        ensures same { OnErr result ((machines : List Machine) (list : List Call) → SessionsRefine self.old transcript.old machines list → SessionsRefine self.new transcript.new machines list) }
        ensures told { OnErr result (TellsTheSame transcript.old transcript.new) }
        ensures cause { IfErr result (λ refusal. refusal ≡ Refusal.Memory) }
        ensures enabled { OnErr result ((machines : List Machine) (list : List Call) → SessionsRefine self.old transcript.old machines list → may_enter machines ≡ true) }
        ensures calls { transcript.new.calls ≡ transcript.old.calls }
    {
        let Ok(seat) = self.lobby.enter() else {
            return Ok(false);
        };
        match prepare(
            alloc,
            &mut self.connections,
            &mut transcript.released,
            &seat,
            front,
        ) {
            Ok((inbound, outbound)) => {
                self.connections.push_reserved(Connection::Open(Client {
                    seat,
                    inbound,
                    outbound,
                }));
                transcript.released.push_reserved(Vec::new(alloc));
                Ok(true)
            }
            Err(refusal) => {
                self.lobby.leave(seat);
                Err(refusal)
            }
        }
    }

    /// Takes a piece of the bytes of connection `c`, any part of its requests, unless an item closed it. Returns whether it did.
    ///
    /// # Errors
    ///
    /// `Memory` alone, where the connection is open and room for the piece or its items was refused. All is as before: nothing of the piece is taken.
    pub fn feed(&mut self, c: u64, piece: &Bytes) -> Result<bool, Refusal>
        ensures goes { (transcript : Transcript) → IfOk result (λ did. (machines : List Machine) (list : List Call) → SessionsRefine self.old transcript machines list
            → Goes (may_feed machines c) did
            (SessionsRefine self.new transcript (changed_at c (with_inbound (fed_with piece.now)) machines) list)
            (SessionsRefine self.new transcript machines list)) }
        ensures same { (transcript : Transcript) → OnErr result ((machines : List Machine) (list : List Call) → SessionsRefine self.old transcript machines list → SessionsRefine self.new transcript machines list) }
        ensures cause { IfErr result (λ refusal. refusal ≡ Refusal.Memory) }
        ensures enabled { (transcript : Transcript) → OnErr result ((machines : List Machine) (list : List Call) → SessionsRefine self.old transcript machines list → may_feed machines c ≡ true) }
        ensures seats { KeepsSeats self.old.connections.items self.new.connections.items }
    {
        let index = c as usize;
        match self.connections.get_mut(index) {
            Some(connection) => match connection {
                Connection::Open(client) => client.inbound.feed(piece),
                Connection::Over => Ok(false),
            },
            None => Ok(false),
        }
    }

    /// Hands a connection's next item to the sequencer, if there is one and there is room for it. Returns whether it did.
    ///
    /// # Errors
    ///
    /// `Memory` alone, where there is one and its clone was refused. All is as before.
    pub fn offer(&mut self, c: u64) -> Result<bool, Refusal>
        ensures goes { (transcript : Transcript) → IfOk result (λ did. (machines : List Machine) (list : List Call) → SessionsRefine self.old transcript machines list
            → Goes (may_offer machines c) did
            (SessionsRefine self.new transcript (changed_at c (with_inbound offered_next) machines) list)
            (SessionsRefine self.new transcript machines list)) }
        ensures same { (transcript : Transcript) → OnErr result ((machines : List Machine) (list : List Call) → SessionsRefine self.old transcript machines list → SessionsRefine self.new transcript machines list) }
        ensures cause { IfErr result (λ refusal. refusal ≡ Refusal.Memory) }
        ensures enabled { (transcript : Transcript) → OnErr result ((machines : List Machine) (list : List Call) → SessionsRefine self.old transcript machines list → may_offer machines c ≡ true) }
        ensures seats { KeepsSeats self.old.connections.items self.new.connections.items }
    {
        match self.connections.get_mut(c as usize) {
            Some(connection) => match connection {
                Connection::Open(client) => client.inbound.offer(),
                Connection::Over => Ok(false),
            },
            None => Ok(false),
        }
    }

    /// A connection's gate takes the first reply that waits. Returns whether there was one.
    ///
    /// # Errors
    ///
    /// `Memory` alone, where there is one and room for its text was refused. All is as before: the reply waits on.
    pub fn hold(&mut self, transcript: &Transcript, c: u64) -> Result<bool, Refusal>
        ensures goes { IfOk result (λ did. (machines : List Machine) (list : List Call) → SessionsRefine self.old transcript.now machines list
            → Goes (may_hold machines c) did
            (SessionsRefine self.new transcript.now (changed_at c (with_outbound held_first) machines) list)
            (SessionsRefine self.new transcript.now machines list)) }
        ensures same { OnErr result ((machines : List Machine) (list : List Call) → SessionsRefine self.old transcript.now machines list → SessionsRefine self.new transcript.now machines list) }
        ensures cause { IfErr result (λ refusal. refusal ≡ Refusal.Memory) }
        ensures enabled { OnErr result ((machines : List Machine) (list : List Call) → SessionsRefine self.old transcript.now machines list → may_hold machines c ≡ true) }
        ensures seats { KeepsSeats self.old.connections.items self.new.connections.items }
    {
        match self.connections.get_mut(c as usize) {
            Some(connection) => match connection {
                Connection::Open(client) => client.outbound.hold(transcript.calls.as_slice()),
                Connection::Over => Ok(false),
            },
            None => Ok(false),
        }
    }

    /// A connection's gate reads one of the marks; `marks` has their present values. Returns whether there is such a connection.
    pub fn read(&mut self, c: u64, mark: Mark, marks: Seen) -> bool
        ensures goes { (transcript : Transcript) (machines : List Machine) (list : List Call) → SessionsRefine self.old transcript machines list
            → Goes (is_open_at machines c) result
            (SessionsRefine self.new transcript (changed_at c (with_outbound (having_seen mark marks)) machines) list)
            (SessionsRefine self.new transcript machines list) }
        ensures seats { KeepsSeats self.old.connections.items self.new.connections.items }
    {
        match self.connections.get_mut(c as usize) {
            Some(connection) => match connection {
                Connection::Open(client) => {
                    client.outbound.read(mark, marks);
                    true
                }
                Connection::Over => false,
            },
            None => false,
        }
    }

    /// A connection's gate releases the replies that are covered. Returns whether there were any.
    pub fn release(&mut self, c: u64) -> bool
        ensures goes { (transcript : Transcript) (machines : List Machine) (list : List Call) → SessionsRefine self.old transcript machines list
            → Goes (may_release machines c) result
            (SessionsRefine self.new transcript (changed_at c (with_outbound having_released) machines) list)
            (SessionsRefine self.new transcript machines list) }
        ensures seats { KeepsSeats self.old.connections.items self.new.connections.items }
    {
        match self.connections.get_mut(c as usize) {
            Some(connection) => match connection {
                Connection::Open(client) => client.outbound.release(),
                Connection::Over => false,
            },
            None => false,
        }
    }

    /// Writes `n` of a connection's pending bytes to it, if there are that many. Returns whether it did.
    ///
    /// # Errors
    ///
    /// `Memory` alone, where there are that many and room for them was refused. All is as before.
    pub fn write(&mut self, transcript: &mut Transcript, c: u64, n: u64) -> Result<bool, Refusal>
        ensures goes { IfOk result (λ did. (machines : List Machine) (list : List Call) → SessionsRefine self.old transcript.old machines list
            → Goes (may_write machines c n) did
            (SessionsRefine self.new transcript.new (changed_at c (with_outbound (written n)) machines) list)
            (SessionsRefine self.new transcript.new machines list)) }
        ensures same { OnErr result ((machines : List Machine) (list : List Call) → SessionsRefine self.old transcript.old machines list → SessionsRefine self.new transcript.new machines list) }
        ensures told { OnErr result (TellsTheSame transcript.old transcript.new) }
        ensures cause { IfErr result (λ refusal. refusal ≡ Refusal.Memory) }
        ensures enabled { OnErr result ((machines : List Machine) (list : List Call) → SessionsRefine self.old transcript.old machines list → may_write machines c n ≡ true) }
        ensures seats { KeepsSeats self.old.connections.items self.new.connections.items }
        ensures calls { transcript.new.calls ≡ transcript.old.calls }
    {
        match self.connections.get_mut(c as usize) {
            Some(connection) => match connection {
                Connection::Open(client) => match transcript.released.get_mut(c as usize) {
                    Some(released) => client.outbound.write(released, n),
                    None => Ok(false),
                },
                Connection::Over => Ok(false),
            },
            None => Ok(false),
        }
    }

    /// Ends a connection: what waits at it is dropped, and its seat is free again, closed in the sequencer, which keeps no queue and no watch of it. Its
    /// calls stay, and so does what was written to it. Returns whether it was open.
    pub fn leave<K: Keyspace>(&mut self, c: u64, front: &mut Front<K>) -> bool
        ensures goes { (transcript : Transcript) (machines : List Machine) (list : List Call) → SessionsRefine self.old transcript machines list
            → Goes (is_open_at machines c) result
            (SessionsRefine self.new transcript (changed_at c left machines) list)
            (SessionsRefine self.new transcript machines list) }
        ensures closed { (seat : ℕ) → HasSeat (seats_of self.old.connections.items) c seat → MovesSeat front.old.sequencer seat None front.new.sequencer }
        ensures stays { result ≡ false → front.new.sequencer ≡ front.old.sequencer }
        ensures follow { (transcript : Transcript) (machines : List Machine) (list : List Call) → SessionsRefine self.old transcript machines list
            → SeatsFollow list (seats_of self.old.connections.items) front.old.sequencer → SeatsFollow list (seats_of self.new.connections.items) front.new.sequencer }
        ensures sequencer { (calls : List Call) (closed : ℕ) → SequencerRefines calls closed front.old.sequencer → SequencerRefines calls closed front.new.sequencer }
        ensures stands { StandsStill front.old.sequencer front.new.sequencer }
        ensures seats { KeepsSeats self.old.connections.items self.new.connections.items }
    {
        let Some(connection) = self.connections.get_mut(c as usize) else {
            return false;
        };
        let Some(seat) = connection.leave() else {
            return false;
        };
        front.close_seat(&seat);
        self.lobby.leave(seat);
        true
    }

    /// The sequencer runs a connection's first waiting item, if there is one and there is room for its reply and for its changes. Returns whether
    /// it did. Where memory is refused, the reply says so.
    pub fn turn<K: Keyspace>(
        &mut self,
        alloc: Global,
        transcript: &mut Transcript,
        c: u64,
        front: &mut Front<K>,
    ) -> bool
        requires { vec_len transcript.old.calls < vec_capacity transcript.old.calls }
        ensures turns { (machines : List Machine) (list : List Call) (closed : ℕ) → IsListOf machines list → SessionsRefine self.old transcript.old machines list
            → SequencerRefines list closed front.old.sequencer
            → SeatsFollow list (seats_of self.old.connections.items) front.old.sequencer
            → TakesTurn machines list closed c result self.new transcript.new front.old.sequencer front.new.sequencer }
        ensures stands { StandsStill front.old.sequencer front.new.sequencer }
        ensures seats { KeepsSeats self.old.connections.items self.new.connections.items }
        ensures calls { AddsOne transcript.old.calls transcript.new.calls }
    {
        let Some(connection) = self.connections.get_mut(c as usize) else {
            return false;
        };
        let Connection::Open(client) = connection else {
            return false;
        };
        if client.outbound.made.len() == PIPE_ITEMS || client.inbound.waiting.is_empty() {
            return false;
        }
        let waiting = &mut client.inbound.waiting;
        let Some(held) = first_reply(alloc, &client.seat, waiting, &mut self.replies, front) else {
            return false;
        };
        // There is room for a position wherever there is room for a call.
        let _ = transcript.positions.push(held.position);
        let asked = &mut client.inbound.asked;
        write_call(
            &mut transcript.calls,
            c,
            asked,
            held,
            &mut client.outbound.made,
        );
        true
    }

    /// Ends every connection as `leave` does, but tells no sequencer, and drops the calls after this position of the list.
    pub fn crash(&mut self, transcript: &mut Transcript, position: u64)
        ensures goes { (machines : List Machine) (list : List Call) → SessionsRefine self.old transcript.old machines list
            → SessionsRefine self.new transcript.new (map left machines) (cut_at list position) }
        ensures unseated { (c seat : ℕ) → HasSeat (seats_of self.new.connections.items) c seat → ⊥ }
        ensures calls { AddsOne transcript.old.calls transcript.new.calls }
    {
        end_all(&mut self.connections, &mut self.lobby);
        transcript.cut(position);
    }
}

/// Opens a seat in the sequencer, and makes all that a connection in it needs, with room for the connection and for what is released to it.
fn prepare<K: Keyspace>(
    alloc: Global,
    connections: &mut Vec<Connection>,
    released: &mut Vec<Vec<u8>>,
    seat: &Seat,
    front: &mut Front<K>,
) -> Result<(Asking, Outbound), Refusal>
    ensures opens { OnOk result (MovesSeat front.old.sequencer seat.now (Some idle_session) front.new.sequencer) }
    ensures inbound { IfOk result (λ parts. AskingRefines parts.0 new_connection.inbound) }
    ensures outbound { IfOk result (λ parts. (list : List Call) → OutboundRefines list parts.1 new_connection.outbound) }
    ensures connections { connections.new.items ≡ connections.old.items }
    ensures room { OnOk result (vec_len connections.new < vec_capacity connections.new) }
    ensures released { released.new.items ≡ released.old.items }
    ensures room_released { OnOk result (vec_len released.new < vec_capacity released.new) }
    ensures err { OnErr result (front.new.sequencer ≡ front.old.sequencer) }
    ensures cause { IfErr result (λ refusal. refusal ≡ Refusal.Memory) }
    ensures stands { StandsStill front.old.sequencer front.new.sequencer }
{
    connections.reserve(1)?;
    released.reserve(1)?;
    let inbound = Asking::new(alloc)?;
    let outbound = Outbound::new(alloc)?;
    front.open_seat(alloc, seat)?;
    Ok((inbound, outbound))
}

/// Ends each connection that is open, and gives its seat back.
fn end_all(connections: &mut Vec<Connection>, lobby: &mut Lobby)
    ensures seats { SeatsRefine lobby.old.statuses (seats_of connections.old.items) → SeatsRefine lobby.new.statuses (seats_of connections.new.items) }
    ensures unseated { (c seat : ℕ) → HasSeat (seats_of connections.new.items) c seat → ⊥ }
    ensures count { length connections.new.items ≡ length connections.old.items }
{
    for connection in connections.iter_mut() {
        if let Some(seat) = connection.leave() {
            lobby.leave(seat);
        }
    }
}

/// The sequencer's answer to the first item that waits, if it runs that item.
fn first_reply<K: Keyspace>(
    alloc: Global,
    seat: &Seat,
    waiting: &mut LocalPipe<Item>,
    replies: &mut LocalPipe<Held>,
    front: &mut Front<K>,
) -> Option<Held>
    ensures runs { replies.old.items ≡ [] → IfSome result (λ held. Runs front.old.sequencer seat.now waiting.old.items held waiting.new.items front.new.sequencer) }
    ensures stays { replies.old.items ≡ [] → IfNone result ((waiting.new.items ≡ waiting.old.items) × (front.new.sequencer ≡ front.old.sequencer)) }
    ensures otherwise { replies.old.items ≡ [] → is_closed front.old.sequencer seat.now ≡ false → length (front.old.sequencer).waiting < MAX_PARTS → waiting.old.items ≢ [] → IsSome result }
    ensures replies { replies.old.items ≡ [] → replies.new.items ≡ [] }
    ensures stands { StandsStill front.old.sequencer front.new.sequencer }
{
    match front.turn(alloc, seat, waiting, replies) {
        Turn::Served => replies.take(),
        _ => None,
    }
}

/// Writes the call of the item that was run, which is the first of those asked for, and leaves its reply for the gate.
fn write_call(
    calls: &mut Vec<Call>,
    c: u64,
    asked: &mut VecDeque<Item>,
    held: Held,
    made: &mut LocalPipe<Made>,
)
    requires { vec_len calls.old < vec_capacity calls.old }
    ensures room { AddsOne calls.old calls.new }
    ensures written { (item : Item) (rest : List Item) → asked.old.items ≡ item ∷ rest → length made.old.items < PIPE_ITEMS
        → (calls.new.items ≡ calls.old.items ++ call_of c item held.reply ∷ []) × (asked.new.items ≡ rest)
        × (made.new.items ≡ made.old.items ++ record { call = length calls.old.items; position = held.position } ∷ []) }
{
    let Some(item) = asked.pop_front() else {
        return;
    };
    let _ = made.offer(Made {
        call: calls.len(),
        position: held.position,
    });
    calls.push_reserved(Call {
        connection: c,
        item,
        reply: held.reply,
    });
}

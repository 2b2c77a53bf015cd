//! A connection that is open, as the node's thread has it.
ghost use Rattle.std.specs.Prelude.{◌≡◌, Some, None, IfOk, IfErr, OnOk, is_some};
ghost use Rattle.multi_watch.specs.Session.{idle_session};
ghost use Rattle.redis_core.specs.Sequencing.{MovesSeat};
ghost use Rattle.serving.specs.Need as spec;
ghost use Rattle.serving.specs.Serving.{Serves};
ghost use Rattle.serving.specs.Turns.{LooksAt, TakesTurn};

use crate::needs::{Asked, Need, Queued, asked_by};
use clients::{ReplyQueue, RequestQueue};
use lobby::Arrival;
use mv_keyspace::Keyspace;
use primary::Front;
use redis_core::Turn;
use std::alloc::Global;
use wakes::SeatNumber;

/// A connection whose seat is open at the front. It is made only where the seat is opened, and taken apart only where it is closed.
#[derive(Drop)]
pub(crate) struct OpenConnection {
    arrival: Arrival<RequestQueue, ReplyQueue>,
    /// What waits for its EXEC.
    pub(crate) queued: Queued,
    /// Whether it is in the list of those that are served again.
    pub(crate) is_again: bool,
}

impl OpenConnection {
    /// Opens the seat of a connection that has arrived, of which nothing was served yet.
    ///
    /// # Errors
    ///
    /// The arrival, where memory was refused. Nothing has changed then.
    pub(crate) fn open<K: Keyspace>(
        alloc: Global,
        front: &mut Front<K>,
        arrival: Arrival<RequestQueue, ReplyQueue>,
    ) -> Result<OpenConnection, Arrival<RequestQueue, ReplyQueue>>
        ensures opened { OnOk result (MovesSeat front.old.sequencer arrival.seat (Some idle_session) front.new.sequencer) }
        ensures connection { IfOk result (λ connection. connection.arrival ≡ arrival) }
        ensures err { IfErr result (λ back. (back ≡ arrival) × (front.new ≡ front.old)) }
        ensures serves { Serves front.old.sequencer front.new.sequencer }
    {
        match front.open_seat(alloc, &arrival.seat) {
            Ok(()) => Ok(OpenConnection {
                arrival,
                queued: Queued::NOTHING,
                is_again: false,
            }),
            Err(_) => Err(arrival),
        }
    }

    /// Closes the seat.
    pub(crate) fn close<K: Keyspace>(
        self,
        front: &mut Front<K>,
    ) -> Arrival<RequestQueue, ReplyQueue>
        ensures closed { MovesSeat front.old.sequencer self.arrival.seat None front.new.sequencer }
        ensures arrival { result ≡ self.arrival }
        ensures serves { Serves front.old.sequencer front.new.sequencer }
    {
        let OpenConnection { arrival, .. } = self;
        front.close_seat(&arrival.seat);
        arrival
    }

    /// Its seat and its rings.
    pub(crate) fn arrival(&self) -> &Arrival<RequestQueue, ReplyQueue>
        ensures { result.now ≡ (self.now).arrival }
    {
        &self.arrival
    }

    /// The number of its seat.
    pub(crate) fn number(&self) -> SeatNumber
        ensures { result.number ≡ (self.now).arrival.seat }
    {
        SeatNumber::of(&self.arrival.seat)
    }

    /// Whether all that the peer will ever send is read.
    pub(crate) fn is_read(&self) -> bool {
        self.arrival.requests.flags.is_read.is_set()
    }

    /// What the next item asks of the room.
    pub(crate) fn look_ahead(&mut self) -> Asked
        ensures looks { LooksAt self.old self.new }
        ensures queued { self.new.queued ≡ self.old.queued }
        ensures asked { result ≡ spec.asked_by_next (self.new).arrival.requests.items.next }
    {
        self.arrival.requests.items.look();
        match self.arrival.requests.items.next() {
            Some(item) => asked_by(item),
            None => Asked::AtMost(Need::NONE),
        }
    }

    /// Whether a request waits, once it was looked for.
    pub(crate) fn has_next(&self) -> bool
        ensures { result ≡ is_some (self.now).arrival.requests.items.next }
    {
        self.arrival.requests.items.next().is_some()
    }

    /// Takes one turn. Where there is no room for its reply, the writer is told that somebody waits, and the turn is tried once more.
    pub(crate) fn take_turn<K: Keyspace>(&mut self, alloc: Global, front: &mut Front<K>) -> Turn
        ensures turn { TakesTurn front.old.sequencer self.old result front.new.sequencer self.new }
        ensures queued { self.new.queued ≡ self.old.queued }
        ensures serves { Serves front.old.sequencer front.new.sequencer }
    {
        let turn = self.try_turn(alloc, front);
        if turn != Turn::Blocked {
            return turn;
        }
        self.arrival.requests.flags.server_waits.set();
        self.arrival.replies.writer.wake();
        self.try_turn(alloc, front)
    }

    fn try_turn<K: Keyspace>(&mut self, alloc: Global, front: &mut Front<K>) -> Turn
        ensures turn { TakesTurn front.old.sequencer self.old result front.new.sequencer self.new }
        ensures queued { self.new.queued ≡ self.old.queued }
        ensures serves { Serves front.old.sequencer front.new.sequencer }
    {
        let arrival = &mut self.arrival;
        front.turn(
            alloc,
            &arrival.seat,
            &mut arrival.requests.items,
            &mut arrival.replies.replies,
        )
    }
}

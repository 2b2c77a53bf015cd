//! The connections that are open, as the node's thread knows them.
ghost use Rattle.std.specs.Prelude.{◌≡◌, ◌⊎◌, ◌+◌, ℕ, ◌≤◌, false, None, Some, length};
ghost use Rattle.redis_core.specs.Sequencing.{Sequencing};
ghost use Rattle.serving.specs.Callers.{answers_of};
ghost use Rattle.serving.specs.Ending.{EndTurns};
ghost use Rattle.serving.specs.Filling.{closed_at};
ghost use Rattle.serving.specs.Places.{PutsAt};
ghost use Rattle.serving.specs.Roomed.{TurnsByNeed};
ghost use Rattle.serving.specs.Serving.{HasRead, Serves, WaitsOnlyFor};
ghost use Rattle.serving.specs.Turns.{TakesTurns};
ghost use Rattle.serving.specs.Visiting.{Admits, AsksEntrance, Floor, Heeds, HeedsCalls, Stays, StaysListed, Visits, VisitsFrom, floor_of, without};
ghost use Rattle.wakes.specs.Waiting.{MayWait};

use crate::again::Again;
use crate::callers::Callers;
use crate::filling::Filling;
use crate::open_connection::OpenConnection;
use crate::places::Places;
use crate::shared_entrance::SharedEntrance;
use crate::turns::{Served, take_turns};
use crate::visited::Visited;
use clients::{ReplyQueue, RequestQueue};
use lobby::Arrival;
use marks::ThreadMarks;
use mv_keyspace::Keyspace;
use primary::Front;
use std::alloc::{AllocError, Global};
use std::sync::{Arc, Wait};
use wakes::{DueIn, ReadyList, SeatNumber, SeatWaker};

/// How many seats that somebody called for are listed before those that are listed are served.
const MOST_CALLS: usize = 64;

/// The connections that are open, each at the place of its seat's number, and who is to be served.
#[derive(Drop)]
pub struct OpenConnections {
    places: Places,
    /// Seats that were called for and not served yet, or not done when they were, each once. Who has waited longest is first.
    again: Again,
    /// Whether a request that was looked at in this round waits for room that is on its way.
    is_short: bool,
    /// What waits to be in the next group.
    filling: Filling,
    callers: Callers,
    due: DueIn,
}

impl OpenConnections {
    /// No connection is open.
    ///
    /// # Errors
    ///
    /// Only `AllocError`.
    pub fn new(
        alloc: Global,
        entrance: Arc<SharedEntrance>,
        ready: Arc<ReadyList>,
        due: DueIn,
    ) -> Result<OpenConnections, AllocError> {
        Ok(OpenConnections {
            places: Places::new(alloc)?,
            again: Again::new(alloc)?,
            is_short: false,
            filling: Filling::new(0),
            callers: Callers::new(ready, entrance),
            due,
        })
    }

    /// Takes in a connection that waits at the entrance. Answers whether there was one.
    pub fn admit<R: Wait, K: Keyspace>(
        &mut self,
        rt: &R,
        alloc: Global,
        front: &mut Front<K>,
    ) -> bool
        ensures serves { Serves front.old.sequencer front.new.sequencer }
        ensures admits { Admits (floor_of self.old front.old.sequencer) (floor_of self.new front.new.sequencer) ⊎ Stays (floor_of self.old front.old.sequencer) (floor_of self.new front.new.sequencer) }
        ensures nobody { result ≡ false → Stays (floor_of self.old front.old.sequencer) (floor_of self.new front.new.sequencer) }
        ensures asks { AsksEntrance (answers_of (self.old).callers.arrivals) (answers_of (self.new).callers.arrivals) (floor_of self.old front.old.sequencer) (floor_of self.new front.new.sequencer) }
        ensures callers { (self.new).callers.answers ≡ (self.old).callers.answers }
    {
        let Some(arrival) = self.callers.next_arrival(rt).arrival() else {
            return false;
        };
        match OpenConnection::open(alloc, front, arrival) {
            Ok(connection) => self.serve_again(connection),
            Err(arrival) => self.let_go(rt, arrival),
        }
        true
    }

    /// Lists those that somebody called for, and serves all that are listed, in the order in which they have waited. Answers whether something was done.
    /// `is_working` is whether the committer has something in hand that may make room; all changes up to `closed` are in groups.
    pub fn serve<R: Wait, K: Keyspace>(
        &mut self,
        rt: &R,
        alloc: Global,
        front: &mut Front<K>,
        is_working: bool,
        marks: &mut ThreadMarks,
        closed: u64,
    ) -> bool
        ensures serves { Serves front.old.sequencer front.new.sequencer }
        ensures read { HasRead marks.old marks.new }
        ensures short { WaitsOnlyFor (self.new).is_short is_working front.new.sequencer }
        ensures visits { (called : Floor) × HeedsCalls (answers_of (self.old).callers.answers) (answers_of (self.new).callers.answers) (floor_of self.old front.old.sequencer) called
            × VisitsFrom (length called.again) 0 (record called { is_short = false; filling = closed_at called.filling closed }) (floor_of self.new front.new.sequencer) }
        ensures arrivals { (self.new).callers.arrivals ≡ (self.old).callers.arrivals }
    {
        let called = self.list_called(rt);
        self.is_short = false;
        self.filling.close(closed);
        let served = self.serve_listed(rt, alloc, front, is_working, marks);
        called | served
    }

    /// Whether a request that was looked at when connections were served last waits for room that is on its way.
    pub(crate) fn is_short(&self) -> bool
        ensures { result ≡ self.now.is_short }
    {
        self.is_short
    }

    /// How many lines of 64 bytes the changes may take at most that waited to be in a group when connections were served last.
    pub(crate) fn lines_waiting(&self) -> u64
        ensures { result ≡ self.now.filling.lines }
    {
        self.filling.lines
    }

    /// Lists those that somebody called for. Answers whether there may be more.
    fn list_called<R: Wait>(&mut self, rt: &R) -> bool
        ensures heeds { (s : Sequencing) → HeedsCalls (answers_of (self.old).callers.answers) (answers_of (self.new).callers.answers) (floor_of self.old s) (floor_of self.new s) }
        ensures arrivals { (self.new).callers.arrivals ≡ (self.old).callers.arrivals }
    {
        for _ in 0..MOST_CALLS {
            let Some(number) = self.callers.next(rt).seat() else {
                return false;
            };
            self.list(number);
        }
        true
    }

    /// Lists the connection for which somebody called, if it is not listed.
    fn list(&mut self, number: SeatNumber)
        ensures heeds { (s : Sequencing) → Heeds number.number (floor_of self.old s) (floor_of self.new s) }
        ensures callers { (self.new).callers ≡ (self.old).callers }
    {
        if self.places.is_again(number) {
            return;
        }
        if let Some(connection) = self.places.lift(number) {
            self.serve_again(connection);
        }
    }

    /// Serves those that are listed, in their order, while the group has room. Answers whether something was done.
    fn serve_listed<R: Wait, K: Keyspace>(
        &mut self,
        rt: &R,
        alloc: Global,
        front: &mut Front<K>,
        is_working: bool,
        marks: &mut ThreadMarks,
    ) -> bool
        requires short { WaitsOnlyFor (self.old).is_short is_working front.old.sequencer }
        ensures serves { Serves front.old.sequencer front.new.sequencer }
        ensures read { HasRead marks.old marks.new }
        ensures short { WaitsOnlyFor (self.new).is_short is_working front.new.sequencer }
        ensures visits { VisitsFrom (length (self.old).again) 0 (floor_of self.old front.old.sequencer) (floor_of self.new front.new.sequencer) }
        ensures callers { (self.new).callers ≡ (self.old).callers }
    {
        let mut any = false;
        let mut passed = 0;
        let all = self.again.len();
        for done in 0..all {
            let share = self.filling.share(front.position(), (all - done) as u64);
            if share == 0 {
                return any;
            }
            let Some(number) = self.again.at(passed) else {
                return any;
            };
            let visited = self.serve_place(
                rt, alloc, front, is_working, marks, number, passed, share,
            );
            any |= visited.did;
            passed += visited.is_passed as usize;
        }
        any
    }

    /// Serves the connection at a place, if one is there, which stands behind `at` others in the list. Of the group it gets no more than its share.
    fn serve_place<R: Wait, K: Keyspace>(
        &mut self,
        rt: &R,
        alloc: Global,
        front: &mut Front<K>,
        is_working: bool,
        marks: &mut ThreadMarks,
        number: SeatNumber,
        at: usize,
        share: u64,
    ) -> Visited
        requires short { WaitsOnlyFor (self.old).is_short is_working front.old.sequencer }
        ensures serves { Serves front.old.sequencer front.new.sequencer }
        ensures read { HasRead marks.old marks.new }
        ensures short { WaitsOnlyFor (self.new).is_short is_working front.new.sequencer }
        ensures visits { Visits share number.number at (floor_of self.old front.old.sequencer) (floor_of self.new front.new.sequencer) result.is_passed }
        ensures callers { (self.new).callers ≡ (self.old).callers }
    {
        let Some(connection) = self.places.lift(number) else {
            self.again.take_out(at);
            return Visited::NOBODY;
        };
        let mut connection = connection;
        let (any, served) = self.give_turns(
            alloc,
            front,
            is_working,
            marks,
            &mut connection,
            share,
        );
        match served {
            Served::Over => {
                let arrival = connection.close(front);
                self.again.take_out(at);
                self.let_go(rt, arrival);
                Visited::ANSWERED
            }
            Served::Busy => {
                self.come_last(at, connection);
                Visited::ANSWERED
            }
            Served::Waits => {
                if any {
                    self.come_last(at, connection);
                    return Visited::ANSWERED;
                }
                self.places.put(connection);
                Visited::PASSED
            }
            Served::Idle => {
                self.again.take_out(at);
                self.put(connection);
                Visited {
                    did: any,
                    is_passed: false,
                }
            }
        }
    }

    /// Gives a connection turns, of the group no more than its share, and calls whoever waits for what they did. Answers whether it was answered anything, and
    /// how that ended.
    fn give_turns<K: Keyspace>(
        &mut self,
        alloc: Global,
        front: &mut Front<K>,
        is_working: bool,
        marks: &mut ThreadMarks,
        connection: &mut OpenConnection,
        share: u64,
    ) -> (bool, Served)
        requires short { WaitsOnlyFor (self.old).is_short is_working front.old.sequencer }
        ensures turns { TakesTurns front.old.sequencer connection.old result.0 front.new.sequencer connection.new }
        ensures serves { Serves front.old.sequencer front.new.sequencer }
        ensures short { WaitsOnlyFor (self.new).is_short is_working front.new.sequencer }
        ensures few { front.new.sequencer.position ≤ front.old.sequencer.position + share }
        ensures ends { EndTurns share (self.new).filling (self.old).is_short front.old.sequencer connection.old result.0 front.new.sequencer connection.new result.1 }
        ensures needs { TurnsByNeed is_working (self.old).is_short front.old.sequencer connection.old (self.old).filling connection.new (self.new).filling }
        ensures places { (self.new).places ≡ (self.old).places }
        ensures again { (self.new).again ≡ (self.old).again }
        ensures callers { (self.new).callers ≡ (self.old).callers }
        ensures read { HasRead marks.old marks.new }
    {
        let (mut is_short, mut filling) = (self.is_short, self.filling);
        let (any, served) = take_turns(
            alloc,
            front,
            is_working,
            connection,
            &mut is_short,
            &mut filling,
            share,
        );
        self.is_short = is_short;
        self.filling = filling;
        self.wake(any, marks, connection.arrival(), front.position());
        (any, served)
    }

    /// Puts a connection at its place, and last in the list, in which it stood behind `at` others.
    fn come_last(&mut self, at: usize, connection: OpenConnection)
        ensures listed { (s : Sequencing) → StaysListed connection connection.arrival.seat (without at (floor_of self.old s)) (floor_of self.new s) }
        ensures short { (self.new).is_short ≡ (self.old).is_short }
        ensures filling { (self.new).filling ≡ (self.old).filling }
        ensures callers { (self.new).callers ≡ (self.old).callers }
    {
        self.again.take_out(at);
        self.serve_again(connection);
    }

    /// Where the connection was answered anything, calls the driver to it, if its reader waits for room, and to its replies, now or once they are covered.
    fn wake(
        &mut self,
        any: bool,
        marks: &mut ThreadMarks,
        arrival: &Arrival<RequestQueue, ReplyQueue>,
        position: u64,
    )
        ensures places { (self.new).places ≡ (self.old).places }
        ensures again { (self.new).again ≡ (self.old).again }
        ensures short { (self.new).is_short ≡ (self.old).is_short }
        ensures filling { (self.new).filling ≡ (self.old).filling }
        ensures callers { (self.new).callers ≡ (self.old).callers }
        ensures read { HasRead marks.old marks.new }
    {
        if !any {
            return;
        }
        if arrival.requests.flags.reader_waits.take() {
            arrival.requests.reader.wake();
        }
        wake_writer(&mut self.due, marks, position, &arrival.replies.writer);
    }

    /// Tells the driver of a connection that it is over, and gives its seat back.
    fn let_go<R: Wait>(&self, rt: &R, arrival: Arrival<RequestQueue, ReplyQueue>) {
        let Arrival {
            seat,
            requests,
            replies,
        } = arrival;
        requests.flags.is_over.set();
        replies.writer.wake();
        self.callers.leave(rt, seat);
        drop(requests);
        drop(replies);
    }

    /// Puts a connection at its place, where it is served once somebody calls.
    fn put(&mut self, connection: OpenConnection)
        ensures put { PutsAt connection.arrival.seat (Some (record connection { is_again = false })) (self.old).places.connections.items (self.new).places.connections.items }
        ensures again { (self.new).again ≡ (self.old).again }
        ensures short { (self.new).is_short ≡ (self.old).is_short }
        ensures filling { (self.new).filling ≡ (self.old).filling }
        ensures callers { (self.new).callers ≡ (self.old).callers }
    {
        let mut connection = connection;
        connection.is_again = false;
        self.places.put(connection);
    }

    /// Puts a connection at its place, and last in the list. (There is room for each seat; one that found none would be served when somebody calls.)
    fn serve_again(&mut self, connection: OpenConnection)
        ensures listed { (s : Sequencing) → StaysListed connection connection.arrival.seat (floor_of self.old s) (floor_of self.new s) }
        ensures short { (self.new).is_short ≡ (self.old).is_short }
        ensures filling { (self.new).filling ≡ (self.old).filling }
        ensures callers { (self.new).callers ≡ (self.old).callers }
    {
        let mut connection = connection;
        connection.is_again = self.again.add(connection.number());
        self.places.put(connection);
    }
}

/// Has a driver called to its replies once both marks are at the position. A mark may have risen after it was read and before the call stood in the list, where
/// nobody saw it then: so the marks are read once more.
fn wake_writer(due: &mut DueIn, marks: &mut ThreadMarks, position: u64, writer: &SeatWaker)
    ensures waits { (known : ℕ) × (known ≤ marks.new.local) × (known ≤ marks.new.remote) × MayWait due.old position known writer.now due.new }
    ensures read { HasRead marks.old marks.new }
{
    let known = both_hold(marks);
    due.wake_at(position, known, writer);
    if position <= known {
        return;
    }
    if position <= both_hold(marks) {
        writer.wake();
    }
}

/// The position up to which both nodes hold the list, as the marks are now.
fn both_hold(marks: &mut ThreadMarks) -> u64
    ensures both { (result ≤ marks.new.local) × (result ≤ marks.new.remote) }
    ensures read { HasRead marks.old marks.new }
{
    let seen = marks.read();
    seen.local.min(seen.remote)
}

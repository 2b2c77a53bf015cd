//! What the calls are run on: the keyspace, the heap and the sessions.
ghost use Rattle.std.specs.Prelude.{◌≡◌, ◌<◌, ◌≤◌, ℕ, List, [], length, vec_capacity, false, None, Some, IfOk, IfErr, OnOk, OnErr, IsErrOf};
ghost use Rattle.extent_heap.specs.Room.{has_room};
ghost use Rattle.multi_watch.specs.Session.{idle_session};
ghost use Rattle.multi_watch.specs.Admission.{act_now, step, session_after_refusal};
ghost use Rattle.multi_watch.specs.Sessions.{session_at, HasRoom};
ghost use Rattle.placing.specs.Back.{CanGiveAll};
ghost use Rattle.placing.specs.Fill.{fill_of};
ghost use Rattle.placing.specs.Left.{IsBeside};
ghost use Rattle.redis_core.specs.Seats.{is_closed_at};
ghost use Rattle.placing.specs.Place.{HasRoomFor};
ghost use Rattle.redis_core.specs.Stored.{AreUnderWay, GivesBack, IsBesideWith, IsSame, IsTooFull, Makes, MovesOne, RunsRequest};

use crate::copying::Copying;
use crate::error::{error, refusal_reply};
use crate::marking::{cleared_keys, mark};
use crate::running::{Running, left_after};
use crate::seats::Seats;
use extent_heap::ExtentHeap;
use kv_types::{Change, EntryNo, Extent, Refusal, Reply, Request};
use model::{COUNTER_LIMIT, Effect, MAX_CHANGE_TEXT_BYTES, outcome_of};
use multi_watch::Act;
use mv_keyspace::Keyspace;
use pipes::Seat;
use placing::{Fill, count_fill, empty_part, give_all, perform};
use std::alloc::Global;
use std::marker::Model;

/// What the calls are run on: the keyspace and the heap after all calls so far, and the session of each seat. A clause sees a `Stored`.
#[derive(Drop)]
pub(crate) struct Store<K: Keyspace> {
    pub(crate) keyspace: K,
    heap: ExtentHeap,
    seats: Seats,
    pub(crate) copying: Option<Copying>,
}

impl<K: Keyspace> Model for Store<K> {
    ghost use Rattle.redis_core.specs.Copying.{copy_in};
    ghost use Rattle.redis_core.specs.Keeping.{IsStore};
    ghost use Rattle.redis_core.specs.Stored.{Stored};

    ghost Value = { Stored };

    ghost view = { λ s. record {
      table = K.table s.keyspace;
      room = s.heap;
      sessions = s.seats;
      copy = copy_in (K.table s.keyspace) (K.past s.keyspace) s.copying;
      last = K.last s.keyspace;
    } };

    ghost invariant = { λ s. IsStore (K.table s.keyspace) s.heap (K.pins s.keyspace) s.copying };
}

impl<K: Keyspace> Store<K> {
    /// A keyspace of which nothing is pinned, with a heap of what is free beside it, and seats.
    pub(crate) fn new(keyspace: K, heap: ExtentHeap, seats: Seats) -> Store<K>
        requires beside { IsBeside (K.table keyspace) heap }
        requires unpinned { K.pins keyspace ≡ [] }
        ensures { result ≡ record { table = K.table keyspace; room = heap; sessions = seats; copy = None; last = K.last keyspace } }
    {
        Store {
            keyspace,
            heap,
            seats,
            copying: None,
        }
    }

    /// Whether no connection is open at a seat.
    pub(crate) fn is_closed(&self, seat: &Seat) -> bool
        ensures { result ≡ is_closed_at (self.now).sessions seat.now }
    {
        self.seats.is_closed(seat)
    }

    /// Whether so many entries are free, and so many extents of this many lines can be cut from what is free.
    pub(crate) fn has_room(&self, count: u64, lines: u64) -> bool
        requires { 0 < lines }
        ensures { result ≡ has_room count lines (self.now).room }
    {
        self.heap.has_room(count, lines)
    }

    /// How much there is, and how much there is room for.
    pub(crate) fn fill(&self) -> Fill
        ensures { result ≡ fill_of (self.now).table (self.now).room }
    {
        count_fill(&self.keyspace, &self.heap)
    }

    /// Opens a seat with an idle session.
    ///
    /// # Errors
    ///
    /// Only `Memory`. Nothing has changed then.
    pub(crate) fn open(&mut self, alloc: Global, seat: &Seat) -> Result<(), Refusal>
        ensures ok { OnOk result (MovesOne self.old seat.now (Some idle_session) self.new) }
        ensures cause { IfErr result (λ refusal. refusal ≡ Refusal.Memory) }
        ensures err { OnErr result (self.new ≡ self.old) }
    {
        self.seats.open(alloc, seat)
    }

    /// Closes a seat: its session is gone.
    pub(crate) fn close(&mut self, seat: &Seat)
        ensures { MovesOne self.old seat.now None self.new }
    {
        self.seats.close(seat);
    }

    /// Places that are free on the image come back to the heap. It takes no memory.
    pub(crate) fn accept(&mut self, entries: &[EntryNo], extents: &[Extent])
        requires room { CanGiveAll (self.old).room entries.now extents.now }
        requires beside { IsBesideWith (self.old).table (self.old).room entries.now }
        ensures { GivesBack self.old entries.now extents.now self.new }
    {
        give_all(&mut self.heap, entries, extents);
    }

    /// What is to be done for a request of the connection at an open seat.
    ///
    /// # Errors
    ///
    /// Only `Memory`. A transaction in which the request would have waited is spoiled then.
    pub(crate) fn call(
        &mut self,
        alloc: Global,
        seat: &Seat,
        request: Request,
    ) -> Result<Act, Refusal>
        requires opened { is_closed_at (self.old).sessions seat.now ≡ false }
        ensures admission { IfOk result (λ act. act_now act ≡ (step (session_at (self.old).sessions seat.now) request).admission) }
        ensures room { IfOk result HasRoom }
        ensures beside { IsBeside (self.new).table (self.new).room }
        ensures ok { OnOk result (MovesOne self.old seat.now (Some (step (session_at (self.old).sessions seat.now) request).session) self.new) }
        ensures cause { IfErr result (λ refusal. refusal ≡ Refusal.Memory) }
        ensures err { OnErr result (MovesOne self.old seat.now (Some (session_after_refusal (session_at (self.old).sessions seat.now) request)) self.new) }
    {
        self.seats.call(alloc, seat, request)
    }

    /// What a call has done before its first request is run: nothing. Its changes will be made at this position.
    pub(crate) fn begin(&self, alloc: Global, position: u64) -> Running
        requires { IsBeside (self.now).table (self.now).room }
        ensures { (requests : List (List (List ℕ))) → AreUnderWay self.now position requests [] requests result self.now }
    {
        Running {
            part: empty_part(alloc, position),
            left: MAX_CHANGE_TEXT_BYTES,
        }
    }

    /// Runs the requests of an EXEC in order, and adds their replies to a list that has room for them.
    pub(crate) fn run_all(
        &mut self,
        alloc: Global,
        requests: &[Request],
        replies: Vec<Reply>,
        running: &mut Running,
    ) -> Vec<Reply>
        requires empty { replies.items ≡ [] }
        requires room { length requests.now ≤ vec_capacity replies }
        ensures { (position : ℕ) → AreUnderWay self.old position requests.now [] requests.now running.old self.old
            → AreUnderWay self.old position requests.now result.items [] running.new self.new }
    {
        let mut replies = replies;
        for request in requests {
            replies.push_reserved(self.run(alloc, request, running));
        }
        replies
    }

    /// Runs a request as part of a call, and returns its reply: its own, or why it was refused. One that was refused changes nothing.
    pub(crate) fn run(&mut self, alloc: Global, request: &Request, running: &mut Running) -> Reply
        ensures { RunsRequest self.old request.now running.old result running.new self.new }
    {
        match self.try_run(alloc, request, running) {
            Ok(reply) => reply,
            Err(refusal) => refusal_reply(refusal),
        }
    }

    /// Does what a request asks for. An `Err` changes nothing: `Full` where there is no room for it; any other is answered as out of memory.
    fn try_run(
        &mut self,
        alloc: Global,
        request: &Request,
        running: &mut Running,
    ) -> Result<Reply, Refusal>
        ensures ok { IfOk result (λ reply. RunsRequest self.old request.now running.old reply running.new self.new) }
        ensures err { OnErr result (self.new ≡ self.old) }
        ensures running { OnErr result (IsSame running.old running.new) }
        ensures full_only { IsErrOf result Refusal.Full → IsTooFull self.old request.now running.old.left }
    {
        let Effect { reply, changes } = outcome_of(alloc, &self.keyspace, request)?;
        let Some(left) = left_after(running.left, &changes) else {
            return Ok(error(b"ERR change is too large"));
        };
        self.make(alloc, changes, running)?;
        running.left = left;
        Ok(reply)
    }

    /// Makes the changes of a request, and marks the keys that they modify.
    fn make(
        &mut self,
        alloc: Global,
        changes: Vec<Change>,
        running: &mut Running,
    ) -> Result<(), Refusal>
        ensures ok { OnOk result (Makes self.old changes.items running.old.part running.new.part self.new) }
        ensures left { running.new.left ≡ running.old.left }
        ensures err { OnErr result (self.new ≡ self.old) }
        ensures running { OnErr result (IsSame running.old running.new) }
        ensures full_only { IsErrOf result Refusal.Full → ¬ HasRoomFor (self.old).room changes.items }
    {
        if changes.is_empty() {
            return Ok(());
        }
        // No list of calls gets this long. One that did would refuse its changes.
        if running.part.position >= COUNTER_LIMIT {
            return Err(Refusal::Exhausted);
        }
        let cleared = cleared_keys(alloc, &self.keyspace, &self.seats, &changes)?;
        let from = running.part.changes.len();
        perform(
            alloc,
            &mut self.keyspace,
            &mut self.heap,
            changes,
            &mut running.part,
        )?;
        mark(&mut self.seats, &running.part.changes[from..], &cleared);
        Ok(())
    }
}

//! The connections of one driver, and the poll that reports which of their sockets are ready.
ghost use Rattle.clients.specs.Places.{IsRound, Notes, Visits, seen_by, connection_at, IsQuiet, IsHeardIn};
ghost use Rattle.mio.specs.Events.{items as events_in};
ghost use Rattle.std.specs.Prelude.{◌≡◌, ℕ, All, false};

use crate::driven::{DrivenConnection, Look};
use crate::intake::DriverEntrance;
use crate::places::{make_room, note_all, note_called, note_ready, put, visit_all};
use kv_types::Seen;
use marks::ThreadMarks;
use mio::{Events, Poll, Registry};
use node_log::{Shown, Waits};
use pipes::MAX_SEATS;
use std::alloc::{AllocError, Global};
use std::sync::{Arc, Wait};
use std::thread;
use std::time::{Clock, Duration, Instant};
use wakes::LONGEST_SLEEP_MILLISECONDS;

/// How many sockets one look at the poll reports at most.
const EVENTS: usize = 256;

/// The connections of one driver, each at its place.
#[derive(Drop)]
pub(crate) struct DrivenConnections {
    poll: Poll,
    events: Events,
    entrance: DriverEntrance,
    /// The places up to the last that was ever taken.
    places: Vec<Option<DrivenConnection>>,
    /// Whether one of those that were visited last has more to do at once.
    is_busy: bool,
    /// When all were looked at last.
    last_look: Option<Instant>,
    /// How long nothing may come on a connection for which nothing waits.
    idle: Option<Duration>,
    /// Where it shows what it counts of them.
    shown: Arc<Shown>,
    /// How long they waited since it did.
    waits: Waits,
}

impl DrivenConnections {
    /// No connection yet. It allocates all the memory that it will ever need.
    ///
    /// # Errors
    ///
    /// Only `AllocError`.
    pub(crate) fn new(
        alloc: Global,
        poll: Poll,
        entrance: DriverEntrance,
        idle: Option<Duration>,
        shown: Arc<Shown>,
    ) -> Result<DrivenConnections, AllocError> {
        Ok(DrivenConnections {
            poll,
            events: Events::with_capacity(alloc, EVENTS)?,
            entrance,
            places: Vec::with_capacity(alloc, MAX_SEATS)?,
            is_busy: false,
            last_look: None,
            idle,
            shown,
            waits: Waits::none(),
        })
    }

    /// Waits until a socket is ready, somebody calls, or a second has passed. It does not wait where there is something to do.
    pub(crate) fn wait<R: Clock>(&mut self, rt: &R) {
        let may_sleep = !self.is_busy && self.entrance.calls().may_sleep();
        let most = if may_sleep {
            Duration::from_millis(LONGEST_SLEEP_MILLISECONDS)
        } else {
            Duration::from_millis(0)
        };
        let polled = self.poll.poll(&mut self.events, Some(most));
        self.entrance.calls().is_awake();
        if polled.is_err() {
            // A poll that fails at once is not to keep a core busy.
            thread::sleep(rt, most);
        }
    }

    /// One round, of the sockets that are ready: notes whom to visit, and visits them. The marks are read in between: who is called when a mark has risen finds
    /// it risen.
    pub(crate) fn take_round<R: Wait + Clock>(&mut self, rt: &R, marks: &mut ThreadMarks)
        ensures { IsRound self.old self.new marks.new }
    {
        self.note(rt);
        let seen = marks.read();
        self.visit(rt, &seen);
    }

    /// Notes the connections whose sockets are ready, for which somebody called, and once a second all.
    fn note<R: Wait + Clock>(&mut self, rt: &R)
        ensures notes { Notes self.old.places.items self.new.places.items }
        ensures ready { All (λ event. IsHeardIn event self.old.places.items self.new.places.items) (events_in self.old.events) }
    {
        note_ready(&self.events, &mut self.places);
        if self.entrance.calls().take_any() {
            self.take_in(rt);
            note_called(self.entrance.calls(), &mut self.places);
        }
        if self.is_time_to_look(rt) {
            let look = Look {
                now: self.last_look,
                idle: self.idle,
            };
            let counted = note_all(&mut self.places, &look, self.waits);
            self.shown.show(&counted);
            self.waits = self.waits.over();
        }
        self.make_room();
    }

    /// Where somebody waits for a seat or a place, those end at once that have been idle for too long, or whose peers send no more and wait.
    fn make_room(&mut self)
        ensures notes { Notes self.old.places.items self.new.places.items }
    {
        if !self.entrance.is_asked_to_look() {
            return;
        }
        let look = Look {
            now: self.waits.now,
            idle: self.idle,
        };
        let any = make_room(&mut self.places, &look);
        self.entrance.has_looked(any);
    }

    /// Takes in the connections that came.
    fn take_in<R: Wait>(&mut self, rt: &R)
        ensures notes { Notes self.old.places.items self.new.places.items }
    {
        for _ in 0..MAX_SEATS {
            let Some(connection) = self.entrance.next(rt) else {
                return;
            };
            put(
                &mut self.places,
                registered(connection, self.poll.registry()),
            );
        }
    }

    /// Whether all are to be looked at, as they were not for a second.
    fn is_time_to_look<R: Clock>(&mut self, rt: &R) -> bool
        ensures places { self.new.places ≡ self.old.places }
    {
        let Ok(now) = Instant::now(rt) else {
            self.waits.now = None;
            return true;
        };
        let is_time = match self.last_look {
            Some(last) => now.duration_since(last)
                >= Duration::from_millis(LONGEST_SLEEP_MILLISECONDS),
            None => true,
        };
        if is_time {
            self.last_look = Some(now);
        }
        self.waits.now = Some(now);
        is_time
    }

    /// Visits those that are noted. Those that have more to do are noted again.
    fn visit<R: Wait>(&mut self, rt: &R, seen: &Seen)
        ensures visits { Visits seen.now self.old.places.items self.new.places.items }
        ensures busy { (self.new).is_busy ≡ false → (k : ℕ) → IsQuiet (connection_at self.new.places.items k) }
    {
        self.is_busy = visit_all(rt, seen, &self.entrance, &mut self.waits, &mut self.places);
    }
}

/// Has the poll report the socket of a connection. Where the system refuses that, the connection ends.
fn registered(connection: DrivenConnection, registry: &Registry) -> DrivenConnection {
    let mut connection = connection;
    if let Err(refused) = connection.register(registry) {
        connection.break_off(&refused);
    }
    connection
}

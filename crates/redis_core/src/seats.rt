//! The sessions of the connections that have a seat.
ghost use Rattle.std.specs.Prelude.{◌≡◌, ℕ, List, replicate, true, false, IsSome, None, Some, IfOk, IfErr, OnOk, OnErr};
ghost use Rattle.std.specs.List.{list_any};
ghost use Rattle.std.specs.Option.{option_map};
ghost use Rattle.cmd_core.specs.Contents.{same_bytes, has_key};
ghost use Rattle.pipes.specs.declared.limits.TheConstants.{MAX_SEATS};
ghost use Rattle.multi_watch.specs.Session.{idle_session, modified, is_watched};
ghost use Rattle.multi_watch.specs.Admission.{step, session_after_refusal};
ghost use Rattle.multi_watch.specs.Sessions.{slot, session_at, Moves, Steps};
ghost use Rattle.redis_core.specs.Seats.{is_closed_at};

use cmd_core::Lookup;
use kv_types::{Key, Refusal, Request};
use multi_watch::{Act, SessionNo, Sessions};
use pipes::{MAX_SEATS, Seat};
use std::alloc::Global;
use std::hash::RandomState;
use std::marker::Model;
use std::mem;

/// The session of each seat. A clause sees, for each seat, its session, and none where the seat is closed.
#[derive(Drop)]
pub(crate) struct Seats {
    sessions: Sessions,
    // By the number of the seat; none where it is closed.
    numbers: Vec<Option<SessionNo>>,
}

impl Model for Seats {
    ghost use Rattle.multi_watch.specs.Sessions as spec;
    ghost use Rattle.redis_core.specs.Seats.{by_seat, AreSeats};

    ghost Value = { spec.Sessions };

    ghost view = { λ s. by_seat s.sessions s.numbers.items };

    ghost invariant = { λ s. AreSeats s.sessions s.numbers.items };
}

impl Seats {
    /// All seats, each of them closed. Watched keys are hashed with `hash_builder`.
    ///
    /// # Errors
    ///
    /// Only `Memory`.
    pub(crate) fn new(alloc: Global, hash_builder: RandomState) -> Result<Seats, Refusal>
        ensures closed { IfOk result (λ seats. seats ≡ replicate MAX_SEATS None) }
        ensures cause { IfErr result (λ refusal. refusal ≡ Refusal.Memory) }
    {
        Ok(Seats {
            sessions: Sessions::new(alloc, hash_builder),
            numbers: vec![in alloc; None; MAX_SEATS]?,
        })
    }

    /// Whether no connection is open at a seat.
    pub(crate) fn is_closed(&self, seat: &Seat) -> bool
        ensures { result ≡ is_closed_at self.now seat.now }
    {
        self.numbers[seat.number()].is_none()
    }

    /// Opens a seat with an idle session, whatever the one had that was there.
    ///
    /// # Errors
    ///
    /// Only `Memory`. Nothing has changed then.
    pub(crate) fn open(&mut self, alloc: Global, seat: &Seat) -> Result<(), Refusal>
        ensures ok { OnOk result (Moves self.old seat.now (Some idle_session) self.new) }
        ensures cause { IfErr result (λ refusal. refusal ≡ Refusal.Memory) }
        ensures err { OnErr result (self.new ≡ self.old) }
    {
        let number = self.sessions.open(alloc)?;
        let before = mem::replace(&mut self.numbers[seat.number()], Some(number));
        if let Some(before) = before {
            self.sessions.close(before);
        }
        Ok(())
    }

    /// Closes a seat: its session's queue and watches are gone. It takes no memory.
    pub(crate) fn close(&mut self, seat: &Seat)
        ensures { Moves self.old seat.now None self.new }
    {
        if let Some(number) = self.numbers[seat.number()].take() {
            self.sessions.close(number);
        }
    }

    /// What is to be done for a request of the connection at an open seat.
    ///
    /// # Errors
    ///
    /// Only `Memory`. The session is as it was then, but a transaction in which the request would have waited is spoiled.
    pub(crate) fn call(
        &mut self,
        alloc: Global,
        seat: &Seat,
        request: Request,
    ) -> Result<Act, Refusal>
        requires opened { is_closed_at self.old seat.now ≡ false }
        ensures ok { IfOk result (λ act. Steps self.old seat.now (step (session_at self.old seat.now) request) act self.new) }
        ensures cause { IfErr result (λ refusal. refusal ≡ Refusal.Memory) }
        ensures err { OnErr result (Moves self.old seat.now (Some (session_after_refusal (session_at self.old seat.now) request)) self.new) }
    {
        let Some(number) = self.numbers[seat.number()] else {
            unreachable!()
        };
        self.sessions.call(alloc, number, request)
    }

    /// A call has modified a key: it is marked in each session that watches it. It takes no memory.
    pub(crate) fn modified(&mut self, key: &Key)
        ensures { (seat : ℕ) → slot self.new seat ≡ option_map (modified key.now) (slot self.old seat) }
    {
        self.sessions.modified(key);
    }

    /// The keys that some session watches and that the keyspace holds.
    ///
    /// # Errors
    ///
    /// Only `Memory`.
    pub(crate) fn watched_in<L: Lookup>(
        &self,
        alloc: Global,
        lookup: &L,
    ) -> Result<Vec<Key>, Refusal>
        ensures held { IfOk result (λ keys. (seat : ℕ) (own : List ℕ) → is_watched own (session_at self.now seat).watched ≡ true
            → list_any (λ key. same_bytes own key) keys.items ≡ has_key (L.keyspace lookup.now) own) }
        ensures watched { IfOk result (λ keys. (own : List ℕ) → list_any (λ key. same_bytes own key) keys.items ≡ true
            → (seat : ℕ) × (is_watched own (session_at self.now seat).watched ≡ true)) }
        ensures cause { IfErr result (λ refusal. refusal ≡ Refusal.Memory) }
    {
        self.sessions.watched_in(alloc, lookup)
    }
}

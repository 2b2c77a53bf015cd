//! The sessions of all connections.
ghost use Rattle.std.specs.Prelude.{◌≡◌, ℕ, List, [], nat_eq, true, false, ◌&&◌, IsTrue, IsSome, None, Some, drop, ◌++◌, ◌↔◌, IfOk, IsErr, IfErr, OnOk, OnErr};
ghost use Rattle.std.specs.List.{list_any};
ghost use Rattle.std.specs.Option.{option_map};
ghost use Rattle.cmd_core.specs.Contents.{same_bytes, has_key};
ghost use Rattle.cmd_core.specs.declared.shape.Keys.TheVariants as shape;
ghost use Rattle.cmd_core.specs.Shape.{are_short};
ghost use Rattle.multi_watch.specs.Session.{idle_session, with_watched, is_watched, modified};
ghost use Rattle.multi_watch.specs.Admission.{step, session_after_refusal, spoiled_if_waits, may_grow, builds_text, will_run, would_wait};
ghost use Rattle.multi_watch.specs.Admission.{after_misuse, after_exec, after_discard, after_watch, after_unwatch, after_other};
ghost use Rattle.multi_watch.specs.Watchers.{has_number};
ghost use Rattle.multi_watch.specs.Sessions.{slot, session_at, Moves, Steps, marked_if};

use crate::act::Act;
use crate::error::SessionError;
use crate::session::Session;
use crate::verb::Verb;
use crate::watchers::Watchers;
use crate::watches::Watches;
use bytes::Bytes;
use cmd_core::Lookup;
use cmd_table::Misuse;
use kv_types::{Key, Refusal, Reply, Request};
use slab::Slab;
use std::alloc::{AllocError, Global};
use std::hash::RandomState;
use std::marker::Model;

/// The number of an open session. A number that was closed may be given out again.
#[derive(Clone, Copy, Debug, PartialEq, Eq)]
pub struct SessionNo(pub usize);

/// The sessions of all connections, and which of them watch which keys. A clause sees the session of each number that is open.
#[derive(Drop)]
pub struct Sessions {
    sessions: Slab<Session>,
    watchers: Watchers,
    hash_builder: RandomState,
}

impl Model for Sessions {
    ghost use Rattle.multi_watch.specs.Sessions as spec;

    ghost Value = { spec.Sessions };

    ghost view = { λ s. s.sessions.slots };

    ghost invariant = { λ s. spec.Agree s.watchers.table.entries s.sessions.slots };
}

impl Sessions {
    /// No session is open. Watched keys are hashed with `hash_builder`, on which nothing that is promised depends. It takes no memory.
    pub fn new(alloc: Global, hash_builder: RandomState) -> Sessions
        ensures { (number : ℕ) → slot result number ≡ None }
    {
        Sessions {
            sessions: Slab::new(alloc),
            watchers: Watchers::new(alloc, hash_builder),
            hash_builder,
        }
    }

    /// Opens an idle session, under a number that was not open.
    ///
    /// # Errors
    ///
    /// Only `Memory`. Nothing has changed then.
    pub fn open(&mut self, alloc: Global) -> Result<SessionNo, Refusal>
        ensures fresh { IfOk result (λ number. slot self.old number.0 ≡ None) }
        ensures opened { IfOk result (λ number. Moves self.old number.0 (Some idle_session) self.new) }
        ensures cause { IfErr result (λ refusal. refusal ≡ Refusal.Memory) }
        ensures err { OnErr result (self.new ≡ self.old) }
    {
        let session = Session::new(alloc, self.hash_builder);
        Ok(SessionNo(self.sessions.insert(session)?))
    }

    /// Closes a session: its queue and its watches are gone. A number that is not open changes nothing. It takes no memory.
    pub fn close(&mut self, number: SessionNo)
        ensures { Moves self.old number.0 None self.new }
    {
        if let Some(session) = self.sessions.try_remove(number.0) {
            self.watchers.remove_all(session.watched(), number.0);
        }
    }

    /// A call has modified a key: it is marked in each session that watches it. It is looked up once, and once more in each of those
    /// sessions. It takes no memory.
    pub fn modified(&mut self, key: &Key)
        ensures sessions { (number : ℕ) → session_at self.new number ≡ modified key.now (session_at self.old number) }
        ensures slots { (number : ℕ) → slot self.new number ≡ option_map (modified key.now) (slot self.old number) }
    {
        mark_all(&mut self.sessions, self.watchers.of(key), key);
    }

    /// The keys that some session watches and that the keyspace holds, for a change that clears it. Goes through all watched keys.
    ///
    /// # Errors
    ///
    /// Only `Memory`.
    pub fn watched_in<L: Lookup>(&self, alloc: Global, lookup: &L) -> Result<Vec<Key>, Refusal>
        ensures held { IfOk result (λ keys. (number : ℕ) (own : List ℕ) → is_watched own (session_at self.now number).watched ≡ true → list_any (λ key. same_bytes own key) keys.items ≡ has_key (L.keyspace lookup.now) own) }
        ensures watched { IfOk result (λ keys. (own : List ℕ) → list_any (λ key. same_bytes own key) keys.items ≡ true → (number : ℕ) × (is_watched own (session_at self.now number).watched ≡ true)) }
        ensures cause { IfErr result (λ refusal. refusal ≡ Refusal.Memory) }
    {
        Ok(self.watchers.held_in(alloc, lookup)?)
    }

    /// What is to be done for a request of the session with an open number.
    ///
    /// # Errors
    ///
    /// Only `Memory`, and only at a request that `may_grow` names. The session is as it was then, but a transaction in which the
    /// request would have waited is spoiled.
    pub fn call(
        &mut self,
        alloc: Global,
        number: SessionNo,
        request: Request,
    ) -> Result<Act, Refusal>
        requires opened { IsSome (slot self.old number.0) }
        ensures ok { IfOk result (λ act. Steps self.old number.0 (step (session_at self.old number.0) request) act self.new) }
        ensures cause { IfErr result (λ refusal. refusal ≡ Refusal.Memory) }
        ensures refusable { IsErr result → IsTrue (may_grow (session_at self.old number.0) request) }
        ensures err { OnErr result (Moves self.old number.0 (Some (session_after_refusal (session_at self.old number.0) request)) self.new) }
    {
        Ok(self.called(alloc, number, request)?)
    }

    fn called(
        &mut self,
        alloc: Global,
        number: SessionNo,
        request: Request,
    ) -> Result<Act, AllocError>
        requires opened { IsSome (slot self.old number.0) }
        ensures ok { IfOk result (λ act. Steps self.old number.0 (step (session_at self.old number.0) request) act self.new) }
        ensures refusable { IsErr result → IsTrue (may_grow (session_at self.old number.0) request) }
        ensures err { OnErr result (Moves self.old number.0 (Some (session_after_refusal (session_at self.old number.0) request)) self.new) }
    {
        match Verb::of(&request) {
            Verb::Misused(misuse) => self.misused(alloc, number, misuse),
            Verb::Quit => Ok(Act::Run(request)),
            Verb::Multi => Ok(self.sessions[number.0].multi()),
            Verb::Exec => self.exec(alloc, number),
            Verb::Discard => Ok(self.discard(alloc, number)),
            Verb::Watch => self.watch(alloc, number, arguments(&request)),
            Verb::Unwatch => self.unwatch(alloc, number, request),
            Verb::Other => self.other(number, request),
        }
    }

    /// A request that is no command. Where memory is refused, nothing changes.
    fn misused(
        &mut self,
        alloc: Global,
        number: SessionNo,
        misuse: Misuse,
    ) -> Result<Act, AllocError>
        requires opened { IsSome (slot self.old number.0) }
        ensures ok { IfOk result (λ act. Steps self.old number.0 (after_misuse misuse (session_at self.old number.0)) act self.new) }
        ensures refusable { IsErr result → IsTrue (builds_text misuse) }
        ensures err { OnErr result (self.new ≡ self.old) }
    {
        let text = misuse.text(alloc)?;
        self.sessions[number.0].spoil();
        Ok(Act::Answer(Reply::Error(text)))
    }

    fn exec(&mut self, alloc: Global, number: SessionNo) -> Result<Act, AllocError>
        requires opened { IsSome (slot self.old number.0) }
        ensures ok { IfOk result (λ act. Steps self.old number.0 (after_exec (session_at self.old number.0)) act self.new) }
        ensures refusable { IsErr result → IsTrue ((session_at self.old number.0).is_open && will_run (session_at self.old number.0)) }
        ensures err { OnErr result (self.new ≡ self.old) }
    {
        let session = &mut self.sessions[number.0];
        if !session.is_open() {
            return Ok(SessionError::ExecOutside.answer());
        }
        let act = session.exec(alloc)?;
        self.forget(alloc, number);
        Ok(act)
    }

    /// DISCARD. It takes no memory.
    fn discard(&mut self, alloc: Global, number: SessionNo) -> Act
        requires opened { IsSome (slot self.old number.0) }
        ensures { Steps self.old number.0 (after_discard (session_at self.old number.0)) result self.new }
    {
        let session = &mut self.sessions[number.0];
        if !session.is_open() {
            return SessionError::DiscardOutside.answer();
        }
        session.discard(alloc);
        self.forget(alloc, number);
        Act::ok()
    }

    /// WATCH. Where memory is refused, nothing changes.
    fn watch(&mut self, alloc: Global, number: SessionNo, keys: &[Bytes]) -> Result<Act, AllocError>
        requires opened { IsSome (slot self.old number.0) }
        requires short { IsTrue (are_short shape.All keys.now) }
        ensures ok { IfOk result (λ act. Steps self.old number.0 (after_watch keys.now (session_at self.old number.0)) act self.new) }
        ensures refusable { IsErr result → (session_at self.old number.0).is_open ≡ false }
        ensures err { OnErr result (self.new ≡ self.old) }
    {
        let session = &self.sessions[number.0];
        if session.is_open() {
            return Ok(SessionError::WatchInside.answer());
        }
        let mut fresh = session.fresh(alloc, keys)?;
        self.watch_fresh(alloc, number, &mut fresh)?;
        Ok(Act::ok())
    }

    /// Watches more keys, none of which the session watches yet. Where memory is refused, nothing changes.
    fn watch_fresh(
        &mut self,
        alloc: Global,
        number: SessionNo,
        fresh: &mut Watches,
    ) -> Result<(), AllocError>
        requires opened { IsSome (slot self.old number.0) }
        requires apart { list_any (λ watch. is_watched watch.key (session_at self.old number.0).watched) fresh.old ≡ false }
        ensures ok { OnOk result (Moves self.old number.0 (Some (with_watched ((session_at self.old number.0).watched ++ fresh.old) (session_at self.old number.0))) self.new) }
        ensures err { OnErr result (self.new ≡ self.old) }
    {
        self.watchers.add_all(alloc, fresh, number.0)?;
        if let Err(refused) = self.sessions[number.0].watch(fresh) {
            self.watchers.remove_all(fresh, number.0);
            return Err(refused);
        }
        Ok(())
    }

    /// UNWATCH, which waits in a transaction. Where memory is refused there, the transaction is spoiled.
    fn unwatch(
        &mut self,
        alloc: Global,
        number: SessionNo,
        request: Request,
    ) -> Result<Act, AllocError>
        requires opened { IsSome (slot self.old number.0) }
        ensures ok { IfOk result (λ act. Steps self.old number.0 (after_unwatch request (session_at self.old number.0)) act self.new) }
        ensures refusable { IsErr result → IsTrue (would_wait (session_at self.old number.0)) }
        ensures err { OnErr result (Moves self.old number.0 (Some (spoiled_if_waits (session_at self.old number.0))) self.new) }
    {
        let session = &mut self.sessions[number.0];
        if session.is_open() {
            return session.wait(request);
        }
        self.forget(alloc, number);
        Ok(Act::ok())
    }

    /// A command that runs on the keyspace, and waits in a transaction. Where memory is refused there, the transaction is spoiled.
    fn other(&mut self, number: SessionNo, request: Request) -> Result<Act, AllocError>
        requires opened { IsSome (slot self.old number.0) }
        ensures ok { IfOk result (λ act. Steps self.old number.0 (after_other request (session_at self.old number.0)) act self.new) }
        ensures refusable { IsErr result → IsTrue (would_wait (session_at self.old number.0)) }
        ensures err { OnErr result (Moves self.old number.0 (Some (spoiled_if_waits (session_at self.old number.0))) self.new) }
    {
        let session = &mut self.sessions[number.0];
        if session.is_open() {
            return session.wait(request);
        }
        Ok(Act::Run(request))
    }

    /// Forgets all watches of a session. It takes no memory.
    fn forget(&mut self, alloc: Global, number: SessionNo)
        requires opened { IsSome (slot self.old number.0) }
        ensures { Moves self.old number.0 (Some (with_watched [] (session_at self.old number.0))) self.new }
    {
        let forgotten = self.sessions[number.0].forget(alloc);
        self.watchers.remove_all(&forgotten, number.0);
    }
}

/// The words after the name.
fn arguments(request: &Request) -> &[Bytes]
    ensures { result.now ≡ drop 1 request.now }
{
    match request.words() {
        [_, arguments @ ..] => arguments,
        [] => &[],
    }
}

/// Marks a key in the sessions of these numbers.
fn mark_all(sessions: &mut Slab<Session>, numbers: &[usize], key: &Key)
    ensures { (n : ℕ) → slot sessions.new.slots n ≡ marked_if key.now (has_number n numbers.now) (slot sessions.old.slots n) }
{
    for number in numbers {
        mark(sessions, *number, key);
    }
}

/// Marks a key in the session of one number.
fn mark(sessions: &mut Slab<Session>, number: usize, key: &Key)
    ensures { (n : ℕ) → slot sessions.new.slots n ≡ marked_if key.now (nat_eq number n) (slot sessions.old.slots n) }
{
    if let Some(session) = sessions.get_mut(number) {
        session.mark(key);
    }
}

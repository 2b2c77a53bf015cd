//! What one connection has set up.
ghost use Rattle.std.specs.Prelude.{◌≡◌, false, ◌++◌, [], IsTrue, IfOk, IsErr, OnOk, OnErr};
ghost use Rattle.std.specs.List.{list_any};
ghost use Rattle.cmd_core.specs.declared.shape.Keys.TheVariants as shape;
ghost use Rattle.cmd_core.specs.Shape.{are_short};
ghost use Rattle.multi_watch.specs.Session as spec;
ghost use Rattle.multi_watch.specs.Session.{idle_session, spoiled, closed, watching, with_watched, is_watched};
ghost use Rattle.multi_watch.specs.Admission.{act_now, after_multi, after_closing, after_waiting, has_room, will_run};
ghost use Rattle.multi_watch.specs.Sessions.{HasRoom};

use crate::act::Act;
use crate::error::SessionError;
use crate::limits::MAX_QUEUED_REQUESTS;
use crate::watches::Watches;
use bytes::Bytes;
use kv_types::{Key, Reply, Request};
use std::alloc::{AllocError, Global};
use std::hash::RandomState;
use std::marker::Model;
use std::mem;

/// The transaction of a connection, and the keys that it watches.
#[derive(Drop)]
pub(crate) struct Session {
    is_open: bool,
    queue: Vec<Request>,
    is_spoiled: bool,
    watched: Watches,
}

impl Model for Session {
    ghost use Rattle.multi_watch.specs.Session as spec;

    ghost Value = { spec.Session };

    ghost view = { λ s. record { is_open = s.is_open; queue = s.queue.items; is_spoiled = s.is_spoiled; watched = s.watched } };
}

impl Session {
    /// No transaction is open and no key is watched. It takes no memory.
    pub(crate) fn new(alloc: Global, hash_builder: RandomState) -> Session
        ensures { result ≡ idle_session }
    {
        Session {
            is_open: false,
            queue: Vec::new(alloc),
            is_spoiled: false,
            watched: Watches::new(alloc, hash_builder),
        }
    }

    /// Whether a transaction is open.
    pub(crate) fn is_open(&self) -> bool
        ensures { result ≡ self.now.is_open }
    {
        self.is_open
    }

    /// The watched keys.
    pub(crate) fn watched(&self) -> &Watches
        ensures { result.now ≡ self.now.watched }
    {
        &self.watched
    }

    /// MULTI. It takes no memory.
    pub(crate) fn multi(&mut self) -> Act
        ensures act { act_now result ≡ (after_multi self.old).admission }
        ensures session { self.new ≡ (after_multi self.old).session }
        ensures room { HasRoom result }
    {
        if self.is_open {
            return SessionError::NestedMulti.answer();
        }
        self.is_open = true;
        self.queue.clear();
        self.is_spoiled = false;
        Act::ok()
    }

    /// A request that waits for EXEC. Where memory is refused, the transaction is spoiled.
    pub(crate) fn wait(&mut self, request: Request) -> Result<Act, AllocError>
        ensures act { IfOk result (λ act. act_now act ≡ (after_waiting request self.old).admission) }
        ensures session { OnOk result (self.new ≡ (after_waiting request self.old).session) }
        ensures watched { self.new.watched ≡ self.old.watched }
        ensures refusable { IsErr result → IsTrue (has_room self.old) }
        ensures room { IfOk result HasRoom }
        ensures err { OnErr result (self.new ≡ spoiled self.old) }
    {
        if self.queue.len() >= MAX_QUEUED_REQUESTS {
            self.spoil();
            return Ok(SessionError::TooLong.answer());
        }
        match self.queue.push(request) {
            Ok(()) => Ok(Act::queued()),
            Err(refused) => {
                self.spoil();
                Err(refused.into())
            }
        }
    }

    /// A transaction that is open will not run.
    pub(crate) fn spoil(&mut self)
        ensures { self.new ≡ spoiled self.old }
    {
        self.is_spoiled = self.is_open || self.is_spoiled;
    }

    /// EXEC of an open transaction, which leaves the watched keys to be forgotten. Where memory is refused, nothing changes.
    pub(crate) fn exec(&mut self, alloc: Global) -> Result<Act, AllocError>
        ensures act { IfOk result (λ act. act_now act ≡ (after_closing self.old).admission) }
        ensures session { OnOk result (self.new ≡ closed self.old) }
        ensures refusable { IsErr result → IsTrue (will_run self.old) }
        ensures room { IfOk result HasRoom }
        ensures err { OnErr result (self.new ≡ self.old) }
    {
        if self.is_spoiled {
            self.discard(alloc);
            return Ok(SessionError::Aborted.answer());
        }
        if self.watched.has_modified() {
            self.discard(alloc);
            return Ok(Act::Answer(Reply::NullArray));
        }
        let replies = Vec::with_capacity(alloc, self.queue.len())?;
        let requests = self.discard(alloc);
        Ok(Act::RunAll { requests, replies })
    }

    /// Closes the transaction, which leaves the watched keys to be forgotten, and returns the requests that waited in it. It takes no memory.
    pub(crate) fn discard(&mut self, alloc: Global) -> Vec<Request>
        ensures queue { result.items ≡ self.old.queue }
        ensures session { self.new ≡ closed self.old }
    {
        self.is_open = false;
        self.is_spoiled = false;
        mem::replace(&mut self.queue, Vec::new(alloc))
    }

    /// Forgets the watched keys, and returns them. It takes no memory.
    pub(crate) fn forget(&mut self, alloc: Global) -> Watches
        ensures watched { result ≡ self.old.watched }
        ensures session { self.new ≡ with_watched [] self.old }
    {
        let none = self.no_watches(alloc);
        mem::replace(&mut self.watched, none)
    }

    fn no_watches(&self, alloc: Global) -> Watches
        ensures { result ≡ [] }
    {
        Watches::new(alloc, self.watched.hash_builder())
    }

    /// The watches that are to be added, so that these keys are watched.
    pub(crate) fn fresh(&self, alloc: Global, keys: &[Bytes]) -> Result<Watches, AllocError>
        requires short { IsTrue (are_short shape.All keys.now) }
        ensures watching { IfOk result (λ fresh. self.now.watched ++ fresh ≡ watching keys.now self.now.watched) }
        ensures apart { IfOk result (λ fresh. list_any (λ watch. is_watched watch.key self.now.watched) fresh ≡ false) }
    {
        let mut fresh = self.no_watches(alloc);
        for key in keys {
            if !self.watched.has(key) && !fresh.has(key) {
                fresh.add(alloc, key)?;
            }
        }
        Ok(fresh)
    }

    /// Watches more keys, none of which is watched yet. Where memory is refused, nothing changes.
    pub(crate) fn watch(&mut self, fresh: &mut Watches) -> Result<(), AllocError>
        requires apart { list_any (λ watch. is_watched watch.key self.old.watched) fresh.old ≡ false }
        ensures ok { OnOk result (self.new ≡ with_watched (self.old.watched ++ fresh.old) self.old) }
        ensures err { OnErr result ((self.new ≡ self.old) × (fresh.new ≡ fresh.old)) }
    {
        self.watched.append(fresh)
    }

    /// A call has modified a key. It takes no memory.
    pub(crate) fn mark(&mut self, key: &Key)
        ensures { self.new ≡ spec.modified key.now self.old }
    {
        self.watched.mark(key.as_slice());
    }
}

//! The copy of the keyspace that calls are run on.
ghost use Rattle.std.specs.Prelude.{◌≡◌, ◌≤◌, None, Some, OnOk, OnErr, IfOk, IfErr, MatchOption};
ghost use Rattle.redis_core.specs.Copying.{GivesPart, IsAllGiven, begun_copy, copied_at, mark_of, restarted_copy};

use crate::copying::{Copying, give_back, next_part};
use crate::store::Store;
use kv_types::{RecordId, Refusal, Value};
use mv_keyspace::Keyspace;
use std::alloc::Global;

impl<K: Keyspace> Store<K> {
    /// The position that the copy is of.
    pub(crate) fn copy_at(&self) -> Option<u64>
        ensures { result ≡ copied_at (self.now).copy }
    {
        match &self.copying {
            Some(copying) => Some(copying.position),
            None => None,
        }
    }

    /// The position that the copy is of, with how many parts were given.
    pub(crate) fn copy_mark(&self) -> Option<(u64, u64)>
        ensures { result ≡ mark_of (self.now).copy }
    {
        match &self.copying {
            Some(copying) => Some((copying.position, copying.parts)),
            None => None,
        }
    }

    /// Begins a copy of the table, which is that of this position. The copy before is given up. Only `Memory`, and then nothing has changed.
    pub(crate) fn begin_copy(&mut self, position: u64) -> Result<(), Refusal>
        requires { (self.old).last ≤ position }
        ensures ok { OnOk result (self.new ≡ record self.old { copy = Some (begun_copy position (self.old).table) }) }
        ensures cause { IfErr result (λ refusal. refusal ≡ Refusal.Memory) }
        ensures err { OnErr result (self.new ≡ self.old) }
    {
        let pin = self.keyspace.pin()?;
        let before = self.copying.replace(Copying {
            pin,
            position,
            after: None,
            parts: 0,
        });
        give_back(&mut self.keyspace, before);
        Ok(())
    }

    /// The copy is given from its first part again.
    pub(crate) fn restart_copy(&mut self)
        ensures { self.new ≡ record self.old { copy = restarted_copy (self.old).copy } }
    {
        if let Some(copying) = &mut self.copying {
            copying.restart();
        }
    }

    /// The next part of the copy; none where all was given, or there is no copy. Only `Memory`, and then nothing has changed.
    pub(crate) fn copy_part(
        &mut self,
        alloc: Global,
        bytes: u64,
    ) -> Result<Option<Vec<(RecordId, Value)>>, Refusal>
        ensures given { IfOk result (λ part. MatchOption part (IsAllGiven (self.old).copy × (self.new ≡ self.old))
            (λ puts. GivesPart bytes (self.old).copy puts.items (self.new).copy)) }
        ensures moves { self.new ≡ record self.old { copy = (self.new).copy } }
        ensures cause { IfErr result (λ refusal. refusal ≡ Refusal.Memory) }
        ensures err { OnErr result (self.new ≡ self.old) }
    {
        let Some(copying) = &mut self.copying else {
            return Ok(None);
        };
        let Some((puts, last)) = next_part(alloc, &self.keyspace, copying, bytes)? else {
            return Ok(None);
        };
        copying.pass(last);
        Ok(Some(puts))
    }

    /// Gives the copy up.
    pub(crate) fn end_copy(&mut self)
        ensures { self.new ≡ record self.old { copy = None } }
    {
        let before = self.copying.take();
        give_back(&mut self.keyspace, before);
    }
}

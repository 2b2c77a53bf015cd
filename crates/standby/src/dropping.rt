//! How a half copy is dropped.
ghost use Rattle.standby.specs.Newcomers.{AwaitsCopy, Clears};

use crate::newcomer::Newcomer;
use kv_types::Refusal;
use mv_keyspace::Keyspace;
use placing::give_all;
use std::alloc::Global;
use wbl_engine::Durable;

impl<E: Durable, K: Keyspace + Drop> Newcomer<E, K> {
    /// Drops what there is of a half copy: its places go back to the heap, and the keyspace is empty. Where there is none nothing changes.
    ///
    /// # Errors
    ///
    /// `Memory` if an allocation was refused: nothing changed. `Fault` if a fence failed.
    pub(crate) fn drop_half(&mut self, alloc: Global) -> Result<(), Refusal>
        requires { AwaitsCopy E.device E.contents E.is_faulted E.staged K.table self.old }
        ensures { Clears E.device E.contents E.is_faulted E.staged K.table self.old result self.new }
    {
        if self.half.is_none() {
            return Ok(());
        }
        let freed = self.engine.drop_staged(alloc)?;
        give_all(&mut self.heap, &freed.entries, &freed.extents);
        self.keyspace = K::empty(alloc);
        self.half = None;
        Ok(())
    }
}

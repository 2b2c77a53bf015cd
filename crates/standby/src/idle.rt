//! What a standby does while no frame comes.
ghost use Rattle.standby.specs.Taking.{Stands, Tidies};

use crate::standby::Standby;
use kv_types::Refusal;
use mv_keyspace::Keyspace;
use std::alloc::Global;
use wbl_engine::Durable;

impl<E: Durable, K: Keyspace> Standby<E, K> {
    /// Frees what has ended and clears the oldest gap of the record, so that the next frame finds the room of both. Answers whether it cleared one: there may
    /// be more then. None is cleared where the record has none, or where its counters are near their limit. No version moves.
    ///
    /// It can be called where `take_frame` can.
    ///
    /// # Errors
    ///
    /// `Memory` if an allocation was refused: what had ended may be freed, and nothing else changed. `Fault` if a fence failed: the image has to be
    /// reopened.
    pub fn tidy(&mut self, alloc: Global) -> Result<bool, Refusal>
        requires { Stands E.device E.contents E.is_faulted K.table self.old }
        ensures { Tidies E.device E.contents E.is_faulted K.table self.old result self.new }
    {
        self.free_ended(alloc)?;
        self.clear_gap(alloc)
    }
}

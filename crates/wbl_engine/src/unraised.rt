//! What has ended is freed under the record that there is.
ghost use Rattle.std.specs.Prelude.{◌≡◌, ◌⊎◌, false, IfOk, IfErr, IsErrOf, OnOk};
ghost use Rattle.pmem.specs.Runs.{LeavesOnly};
ghost use Rattle.wbl_engine.specs.Contents.{IsDurable, Same};
ghost use Rattle.wbl_engine.specs.Fencing.{StopsAtFault};
ghost use Rattle.wbl_engine.specs.Freeing.{AreEnded, KeepsMap, KeepsWithoutSome, after_free, extents_of};

use crate::durable::Durable;
use crate::freeing::Freed;
use kv_types::{EntryNo, Refusal};
use std::alloc::Global;

/// Frees entries whose versions have ended, as `Durable::free` does, and raises no floor: for images that give no deltas, or where the records of these
/// versions are live elsewhere. `Fault` if a fence failed, in this call or an earlier one; `Memory` if an allocation was refused, with nothing changed.
///
/// At any moment a crash leaves the contents without some of these versions, perhaps none and perhaps all.
pub fn free_unraised<E: Durable>(
    engine: &mut E,
    alloc: Global,
    entries: &[EntryNo],
) -> Result<Freed, Refusal>
    requires { AreEnded (E.contents engine.old) entries.now }
    ensures entries { IfOk result (λ freed. freed.entries.items ≡ entries.now) }
    ensures extents { IfOk result (λ freed. freed.extents.items ≡ extents_of (E.contents engine.old).versions entries.now) }
    ensures moved { OnOk result (Same (after_free entries.now (E.contents engine.old)) (E.contents engine.new)) }
    ensures map { OnOk result (KeepsMap (E.contents engine.old) (E.contents engine.new)) }
    ensures durable { OnOk result (IsDurable (E.device engine.new) (E.contents engine.new)) }
    ensures fences { StopsAtFault E.device E.is_faulted engine.old result engine.new }
    ensures causes { IfErr result (λ refusal. (refusal ≡ Refusal.Fault) ⊎ (refusal ≡ Refusal.Memory)) }
    // as loads return it
    ensures stays { IsErrOf result Refusal.Fault → E.is_faulted engine.old ≡ false
        → Same (after_free entries.now (E.contents engine.old)) (E.contents engine.new) }
    ensures memory { IsErrOf result Refusal.Memory → engine.new ≡ engine.old }
    ensures moments { E.is_faulted engine.old ≡ false
        → LeavesOnly (E.device engine.old) (E.device engine.new) (KeepsWithoutSome entries.now (E.contents engine.old)) }
{
    engine.free(alloc, entries, 0)
}

//! A newcomer that is made of its image.
ghost use Rattle.std.specs.Prelude.{◌≡◌, ◌⊎◌, ℕ, false, [], None, IfOk, IfErr, OnOk};
ghost use Rattle.kv_types.specs.declared.refusal.Refusal.TheVariants.{Fault, Memory};
ghost use Rattle.model.specs.declared.layout.TheConstants.{LAYOUT};
ghost use Rattle.model.specs.declared.record.Role.TheVariants as role;
ghost use Rattle.model.specs.Image.{Image};
ghost use Rattle.pmem.specs.Device.{Only};
ghost use Rattle.pmem.specs.Crash.{image_of};
ghost use Rattle.wbl_engine.specs.Reopening.{RefusesReopening};
ghost use Rattle.wbl_engine.specs.Restarting.{IsReopened};
ghost use Rattle.standby.specs.Beginning.{ClearsGaps, IsBegun};
ghost use Rattle.standby.specs.Following.{IsGapless};
ghost use Rattle.standby.specs.Newcomers.{AwaitsCopy};
ghost use Rattle.standby.specs.Taking.{Stands};

use crate::newcomer::Newcomer;
use crate::opening::read_back;
use crate::standby::Standby;
use kv_types::Refusal;
use model::LAYOUT;
use mv_keyspace::Keyspace;
use pmem::Pmem;
use std::alloc::Global;
use wbl_engine::{Durable, Role, WblEngine};

/// Opens a newcomer's image again, and clears the gaps of its record. It has no part of a copy, whatever was staged there before, and the entries of that are
/// free: a copy has the room that it has on a new image.
///
/// # Errors
///
/// As at `WblEngine::reopen`; and `Memory` and `Fault` also after it: the image is the reopened one then, perhaps with fewer gaps.
pub fn open_newcomer<P: Pmem + Drop, K: Keyspace + Drop>(
    alloc: Global,
    device: P,
) -> Result<Newcomer<WblEngine<P>, K>, Refusal>
    requires settled { (word : ℕ) → Only ((P.state device).words word) (image_of (P.state device).words word) }
    ensures begun { IfOk result (λ node. IsBegun (P.state device).lines (image_of (P.state device).words)
        (⟦<WblEngine<P> as Durable>⟧.contents node.engine)) }
    ensures awaits { IfOk result (λ node. AwaitsCopy ⟦<WblEngine<P> as Durable>⟧.device ⟦<WblEngine<P> as Durable>⟧.contents
        ⟦<WblEngine<P> as Durable>⟧.is_faulted ⟦<WblEngine<P> as Durable>⟧.staged K.table node) }
    ensures none { IfOk result (λ node. node.half ≡ None) }
    ensures refused { IfErr result (λ refusal. (refusal ≡ Fault) ⊎ ((refusal ≡ Memory)
        ⊎ RefusesReopening LAYOUT (P.state device).lines (image_of (P.state device).words) role.Newcomer refusal)) }
{
    match WblEngine::reopen(alloc, device, LAYOUT, Role::Newcomer) {
        Ok((engine, versions)) => {
            let layout = engine.record().layout;
            let (keyspace, room) = read_back(alloc, layout, engine.lines(), versions)?;
            let read = Standby {
                engine,
                keyspace,
                heap: room.heap,
                ended: room.ended,
            };
            begin(alloc, read)
        }
        Err((refusal, _device)) => Err(refusal),
    }
}

/// The newcomer of what was read of its image, as a standby has it, once no gap is left.
///
/// # Errors
///
/// `Memory` if an allocation was refused, `Fault` if a fence failed.
fn begin<E: Durable + Drop, K: Keyspace + Drop>(
    alloc: Global,
    mut read: Standby<E, K>,
) -> Result<Newcomer<E, K>, Refusal>
    requires stands { Stands E.device E.contents E.is_faulted K.table read }
    requires newcomer { (E.contents read.engine).current.role ≡ role.Newcomer }
    requires empty { (i : ℕ) → (E.contents read.engine).versions i ≡ None }
    requires idle { E.is_copying read.engine ≡ false }
    ensures begun { (lines : ℕ) (image : Image) → IsReopened lines image role.Newcomer (E.contents read.engine)
        → IfOk result (λ node. IsBegun lines image (E.contents node.engine)) }
    ensures awaits { IfOk result (λ node. AwaitsCopy E.device E.contents E.is_faulted E.staged K.table node) }
    ensures none { IfOk result (λ node. node.half ≡ None) }
    ensures cause { IfErr result (λ refusal. (refusal ≡ Memory) ⊎ (refusal ≡ Fault)) }
{
    read.clear_all_gaps(alloc)?;
    Ok(Newcomer {
        engine: read.engine,
        keyspace: read.keyspace,
        heap: read.heap,
        half: None,
    })
}

impl<E: Durable, K: Keyspace> Standby<E, K> {
    /// Clears all gaps of the record, the oldest first, as far as the counters allow it.
    ///
    /// # Errors
    ///
    /// `Memory` if an allocation was refused, `Fault` if a fence failed.
    fn clear_all_gaps(&mut self, alloc: Global) -> Result<(), Refusal>
        requires stands { Stands E.device E.contents E.is_faulted K.table self.old }
        requires none { self.old.ended.items ≡ [] }
        ensures stands { OnOk result (Stands E.device E.contents E.is_faulted K.table self.new) }
        ensures none { OnOk result (self.new.ended.items ≡ []) }
        ensures cleared { OnOk result (ClearsGaps (E.contents self.old.engine) (E.contents self.new.engine)) }
        ensures gapless { OnOk result (IsGapless (E.contents self.new.engine).current) }
        ensures copying { OnOk result (E.is_copying self.new.engine ≡ E.is_copying self.old.engine) }
        ensures cause { IfErr result (λ refusal. (refusal ≡ Memory) ⊎ (refusal ≡ Fault)) }
    {
        while self.clear_gap(alloc)? {}
        Ok(())
    }
}

//! An image of version 1 whose last entries are emptied: the engine clears its gaps and moves what is live, and what has ended is moved by hand.
ghost use Rattle.std.specs.Prelude.{◌≡◌, ◌⊎◌, ◌<◌, ℕ, [], IfOk, IfErr, IsErrOf, MatchResult, OnOk};
ghost use Rattle.kv_types.specs.Keyspace.{Keyspace};
ghost use Rattle.pmem.specs.Device.{Only};
ghost use Rattle.pmem.specs.Crash.{image_of};
ghost use Rattle.pmem.specs.Runs.{LeavesOnly};
ghost use Rattle.model.specs.declared.layout.Layout.TheVariants.{Version1};
ghost use Rattle.model.specs.declared.record.Record.{Record as CommitRecord};
ghost use Rattle.wbl_record.specs.Current.{IsLawful};
ghost use Rattle.wbl_engine.specs.Relocating.{ExhaustsRelocation};
ghost use Rattle.wbl_engine.specs.Reopening.{RefusesReopening};
ghost use Rattle.wbl_migrate.specs.Leaving.{AreLeaving, IsEmptied};
ghost use Rattle.wbl_migrate.specs.Migrating.{GoesOnFrom, IsOldImage, StaysOld};
ghost use Rattle.wbl_migrate.specs.Moving.{AreKnown, HoldsBy, IsLeft, IsReady, IsStep};
ghost use Rattle.wbl_migrate.specs.Stage.{IsMovable};
ghost use Rattle.wbl_migrate.specs.Steps.{Leaves};
ghost use Rattle.wbl_migrate.specs.Vacating.{HasLastEntry, IsVacated, StaysOldWith, StopsAt, Vacates};

use crate::clearing::clear_gaps;
use crate::leaving::move_all_ended;
use crate::moving::{Place, move_live};
use arrayvec::ArrayVec;
use kv_types::{EntryNo, Refusal};
use model::{Layout, Record, Role};
use pmem::Pmem;
use std::alloc::Global;
use wbl_engine::{Durable, Versions, WblEngine};

/// Empties the entries of an image of version 1 that version 2 does not keep: reopens it in its role, clears the gaps of its record, moves its live versions,
/// and then those that have ended. Returns the device and its record, under which it may be marked as halfway.
///
/// At any moment a crash leaves an undamaged image of version 1 with the same map, position, epoch and role.
///
/// # Errors
///
/// As of the reopening, with nothing changed; `Full` where there is no place for one of the versions; `Exhausted` where a counter would reach 2^62; `Memory` if
/// an allocation was refused; `Fault` if a fence failed. Each hands the device back.
pub fn vacate<P: Pmem>(alloc: Global, device: P, role: Role) -> Result<(P, Record), (Refusal, P)>
    requires settled { (word : ℕ) → Only ((P.state device).words word) (image_of (P.state device).words word) }
    ensures goes_on { IfOk result (λ o. (r : CommitRecord) (s : Keyspace) → IsOldImage (P.state device).lines r s (image_of (P.state device).words)
        → GoesOnFrom r o.1) }
    ensures ok { IfOk result (λ o. (r : CommitRecord) (s : Keyspace) → IsOldImage (P.state device).lines r s (image_of (P.state device).words)
        → Leaves (P.state o.0) (IsMovable Version1 (P.state device).lines o.1 s)) }
    ensures lawful { IfOk result (λ o. IsLawful o.1) }
    // only an image that breaks no rule is not refused
    ensures only { OnOk result ((r : CommitRecord) × (s : Keyspace) × IsOldImage (P.state device).lines r s (image_of (P.state device).words)) }
    ensures line_count { IfOk result (λ o. (P.state o.0).lines ≡ (P.state device).lines) }
    ensures sound { IfOk result (λ o. (P.state o.0).failures ≡ (P.state device).failures) }
    ensures causes { IfErr result (λ refused.
        (RefusesReopening Version1 (P.state device).lines (image_of (P.state device).words) role refused.0 × (refused.1 ≡ device))
        ⊎ ((refused.0 ≡ Refusal.Full) ⊎ ((refused.0 ≡ Refusal.Fault) ⊎ ((refused.0 ≡ Refusal.Exhausted) ⊎ (refused.0 ≡ Refusal.Memory))))) }
    // a version is left in one of the last entries
    ensures full { IfErr result (λ refused. refused.0 ≡ Refusal.Full → (r : CommitRecord) (s : Keyspace)
        → IsOldImage (P.state device).lines r s (image_of (P.state device).words)
        → Leaves (P.state refused.1) (StaysOldWith (HasLastEntry (P.state device).lines) (P.state device).lines r s)) }
    // a counter of the image's record would reach the limit, or one of the record that it had come to have
    ensures exhausted { IfErr result (λ refused. refused.0 ≡ Refusal.Exhausted → (r : CommitRecord) (s : Keyspace)
        → IsOldImage (P.state device).lines r s (image_of (P.state device).words)
        → RefusesReopening Version1 (P.state device).lines (image_of (P.state device).words) role Refusal.Exhausted
        ⊎ Leaves (P.state refused.1) (StaysOldWith (λ current _. ExhaustsRelocation 1 current) (P.state device).lines r s)) }
    ensures fault { IfErr result (λ refused. refused.0 ≡ Refusal.Fault → (P.state device).failures < (P.state refused.1).failures) }
    ensures no_fault { IfErr result (λ refused. (refused.0 ≡ Refusal.Fault → ⊥) → (P.state refused.1).failures ≡ (P.state device).failures) }
    ensures moments { (r : CommitRecord) (s : Keyspace) → IsOldImage (P.state device).lines r s (image_of (P.state device).words)
        → MatchResult result
        (λ o. LeavesOnly (P.state device) (P.state o.0) (StaysOld (P.state device).lines r s))
        (λ refused. LeavesOnly (P.state device) (P.state refused.1) (StaysOld (P.state device).lines r s)) }
{
    match WblEngine::reopen(alloc, device, Layout::Version1, role) {
        Ok((engine, versions)) => vacate_engine(alloc, engine, &versions),
        Err(refused) => Err(refused),
    }
}

/// Empties the entries that version 2 does not keep, of an engine that was reopened. `versions` is what was read of its image. Returns its device and its
/// record. Errors as at `vacate`, behind the reopening.
fn vacate_engine<E: Durable>(
    alloc: Global,
    engine: E,
    versions: &Versions,
) -> Result<(E::Device, Record), (Refusal, E::Device)>
    requires ready { IsReady E.device E.contents E.is_faulted engine }
    requires known { AreKnown (E.contents engine) versions.now.counted.items versions.now.gapped.items [] }
    ensures vacated { IfOk result (λ o. IsVacated o.1 (E.Device.state o.0) (E.contents engine)) }
    ensures sound { IfOk result (λ o. (E.Device.state o.0).failures ≡ (E.device engine).failures) }
    ensures causes { IfErr result (λ refused. (refused.0 ≡ Refusal.Full)
        ⊎ ((refused.0 ≡ Refusal.Fault) ⊎ ((refused.0 ≡ Refusal.Exhausted) ⊎ (refused.0 ≡ Refusal.Memory)))) }
    ensures full { IfErr result (λ refused. refused.0 ≡ Refusal.Full
        → StopsAt (λ contents. ¬ IsEmptied contents) (E.Device.state refused.1) (E.contents engine)) }
    ensures exhausted { IfErr result (λ refused. refused.0 ≡ Refusal.Exhausted
        → StopsAt (λ contents. ExhaustsRelocation 1 contents.current) (E.Device.state refused.1) (E.contents engine)) }
    ensures fault { IfErr result (λ refused. refused.0 ≡ Refusal.Fault → (E.device engine).failures < (E.Device.state refused.1).failures) }
    ensures no_fault { IfErr result (λ refused. (refused.0 ≡ Refusal.Fault → ⊥) → (E.Device.state refused.1).failures ≡ (E.device engine).failures) }
    ensures moments { MatchResult result
        (λ o. LeavesOnly (E.device engine) (E.Device.state o.0) (HoldsBy Vacates (E.contents engine)))
        (λ refused. LeavesOnly (E.device engine) (E.Device.state refused.1) (HoldsBy Vacates (E.contents engine))) }
{
    let mut engine = engine;
    let (cleared, places) = match vacate_live(&mut engine, alloc, versions) {
        Ok(room) => room,
        Err(refusal) => return Err((refusal, engine.into_device())),
    };
    let current = copy_of(engine.record());
    let mut device = engine.into_device();
    match move_all_ended(&mut device, alloc, &current, versions, &cleared, places) {
        Ok(()) => Ok((device, current)),
        Err(refusal) => Err((refusal, device)),
    }
}

/// Clears the gaps of the record and moves the live versions. Returns the entries that are free by the clearing, and where each version lies then.
fn vacate_live<E: Durable>(
    engine: &mut E,
    alloc: Global,
    versions: &Versions,
) -> Result<(Vec<EntryNo>, Vec<Place>), Refusal>
    requires ready { IsReady E.device E.contents E.is_faulted engine.old }
    requires known { AreKnown (E.contents engine.old) versions.now.counted.items versions.now.gapped.items [] }
    ensures gapless { OnOk result ((E.contents engine.new).current.gaps.items ≡ []) }
    ensures leaving { IfOk result (λ o. AreLeaving (E.contents engine.new) versions.now.counted.items versions.now.gapped.items o.0.items o.1.items 0) }
    ensures causes { IfErr result (λ refusal. (refusal ≡ Refusal.Full)
        ⊎ ((refusal ≡ Refusal.Fault) ⊎ ((refusal ≡ Refusal.Exhausted) ⊎ (refusal ≡ Refusal.Memory)))) }
    ensures full { IsErrOf result Refusal.Full → IsLeft (E.contents engine.new) }
    ensures exhausted { IsErrOf result Refusal.Exhausted → ExhaustsRelocation 1 (E.contents engine.new).current }
    ensures step { IsStep E.device E.contents E.is_faulted Vacates engine.old result engine.new }
{
    let cleared = clear_gaps(engine, alloc)?;
    let places = move_live(engine, alloc, versions, &cleared)?;
    Ok((cleared, places))
}

/// A copy of a record that has no gap.
fn copy_of(current: &Record) -> Record
    requires { current.now.gaps.items ≡ [] }
    ensures { result ≡ current.now }
{
    Record {
        layout: current.layout,
        number: current.number,
        position: current.position,
        cp: current.cp,
        cd: current.cd,
        epoch: current.epoch,
        role: current.role,
        gaps: ArrayVec::new(),
        floor: current.floor,
    }
}

//! The migration as a whole, from whatever stage an image is at.
ghost use Rattle.std.specs.Prelude.{◌≡◌, ◌⊎◌, ◌<◌, ◌≤◌, ℕ, Ok, Err, None, Some, IfOk, IfErr, IsErrOf, OnOk, MatchResult};
ghost use Rattle.kv_types.specs.declared.refusal.Refusal.{Refusal as Cause};
ghost use Rattle.kv_types.specs.Keyspace.{Keyspace};
ghost use Rattle.pmem.specs.Device.{Only, moment};
ghost use Rattle.pmem.specs.Crash.{image_of};
ghost use Rattle.pmem.specs.Runs.{LeavesOnly};
ghost use Rattle.model.specs.declared.image.TheConstants.{MIN_LINES};
ghost use Rattle.model.specs.declared.layout.Layout.TheVariants.{Version1, Version2, Halfway};
ghost use Rattle.model.specs.declared.record.Record.{Record as CommitRecord};
ghost use Rattle.model.specs.Image.{HasSuperblock, Image};
ghost use Rattle.heap_layout.specs.Superblock.{super_refusal};
ghost use Rattle.wbl_migrate.specs.Limits.{IsAtLimit};
ghost use Rattle.wbl_migrate.specs.Migrating.{CanBeMigrated, HasGapless, IsHalfwayImage, IsMigratable, IsMigrated, IsOldImage, StaysMigratable};
ghost use Rattle.wbl_migrate.specs.Stage.{KeepsMap, stage_refusal};
ghost use Rattle.wbl_migrate.specs.Steps.{Leaves};
ghost use Rattle.wbl_migrate.specs.Vacating.{HasLastEntry, StaysOldWith};

use crate::stage::stage_of;
use crate::switching::{go_on, switch};
use crate::vacating::vacate;
use kv_types::Refusal;
use model::{Layout, Record};
use pmem::Pmem;
use std::alloc::Global;
use wbl_engine::inspect;
use wbl_record::read_current;

/// Makes an image one of version 2: an old one by all steps, one that a crash left halfway by those that are left. One of version 2 it leaves as it is, and so
/// its floor; of any other one the floor is its position then.
///
/// At any moment a crash leaves an image with the same map, position, epoch and role, from which the migration goes on. The steps ask of a fence that it
/// orders, and the last one syncs.
///
/// # Errors
///
/// `WrongSize`, `BadMagic`, `BadVersion` or `Damaged` by the rules of the format, with nothing changed: an old image and one that is halfway are read by all of
/// them, one of version 2 by those of the superblock. `Full` where there is no place for a version that has to move; `Exhausted` where a counter would reach
/// 2^62; `Memory` if an allocation was refused: the image has the version that it had, and the same map. `Fault` if a fence failed. Each hands the device back.
pub fn migrate<P: Pmem>(alloc: Global, device: P) -> Result<P, (Refusal, P)>
    requires settled { (word : ℕ) → Only ((P.state device).words word) (image_of (P.state device).words word) }
    ensures ok { IfOk result (λ after. (r : CommitRecord) (s : Keyspace) → IsMigratable (P.state device).lines r s (image_of (P.state device).words)
        → Leaves (P.state after) (IsMigrated (P.state device).lines r s)) }
    // only one that can be migrated on, or that is of version 2, is not refused
    ensures only { OnOk result (HasSuperblock Version2 (P.state device).lines (image_of (P.state device).words)
        ⊎ CanBeMigrated (P.state device).lines (image_of (P.state device).words)) }
    // of version 2 it is already
    ensures unchanged { HasSuperblock Version2 (P.state device).lines (image_of (P.state device).words) →
        stage_refusal (P.state device).lines (image_of (P.state device).words) ≡ None → result ≡ Ok device }
    // one that is halfway, and that cannot be migrated on, is refused and left as it was
    ensures halfway { HasSuperblock Halfway (P.state device).lines (image_of (P.state device).words) →
        stage_refusal (P.state device).lines (image_of (P.state device).words) ≡ None
        → ((r : CommitRecord) (s : Keyspace) → ¬ IsHalfwayImage (P.state device).lines r s (image_of (P.state device).words))
        → (result ≡ Err (Refusal.Damaged, device)) ⊎ (result ≡ Err (Refusal.Memory, device)) }
    ensures line_count { IfOk result (λ after. (P.state after).lines ≡ (P.state device).lines) }
    // what was written is durable
    ensures synced { IfOk result (λ after. (after ≡ device) ⊎ (P.floor after ≡ moment (P.state after))) }
    ensures sound { IfOk result (λ after. (P.state after).failures ≡ (P.state device).failures) }
    ensures causes { IfErr result (λ refused. (stage_refusal (P.state device).lines (image_of (P.state device).words) ≡ Some refused.0)
        ⊎ ((refused.0 ≡ Refusal.Damaged)
        ⊎ ((refused.0 ≡ Refusal.Full) ⊎ ((refused.0 ≡ Refusal.Fault) ⊎ ((refused.0 ≡ Refusal.Exhausted) ⊎ (refused.0 ≡ Refusal.Memory)))))) }
    ensures superblock { (refusal : Cause) → stage_refusal (P.state device).lines (image_of (P.state device).words) ≡ Some refusal
        → result ≡ Err (refusal, device) }
    // an image that can be migrated is not refused as damaged, and one that is refused so is left as it was
    ensures damaged { IfErr result (λ refused. refused.0 ≡ Refusal.Damaged → (refused.1 ≡ device)
        × ((r : CommitRecord) (s : Keyspace) → ¬ IsMigratable (P.state device).lines r s (image_of (P.state device).words))) }
    // a version is left in one of the last entries of an image that is still of version 1
    ensures full { IfErr result (λ refused. refused.0 ≡ Refusal.Full → (r : CommitRecord) (s : Keyspace)
        → IsOldImage (P.state device).lines r s (image_of (P.state device).words)
        → Leaves (P.state refused.1) (StaysOldWith (HasLastEntry (P.state device).lines) (P.state device).lines r s)) }
    // a counter is at its limit
    ensures exhausted { IfErr result (λ refused. refused.0 ≡ Refusal.Exhausted → (r : CommitRecord) (s : Keyspace)
        → IsMigratable (P.state device).lines r s (image_of (P.state device).words)
        → IsAtLimit (P.state device).lines r s (P.state refused.1)) }
    ensures fault { IfErr result (λ refused. refused.0 ≡ Refusal.Fault → (P.state device).failures < (P.state refused.1).failures) }
    ensures no_fault { IfErr result (λ refused. (refused.0 ≡ Refusal.Fault → ⊥) → (P.state refused.1).failures ≡ (P.state device).failures) }
    ensures moments { (r : CommitRecord) (s : Keyspace) → IsMigratable (P.state device).lines r s (image_of (P.state device).words)
        → MatchResult result
        (λ after. LeavesOnly (P.state device) (P.state after) (StaysMigratable (P.state device).lines r s))
        (λ refused. LeavesOnly (P.state device) (P.state refused.1) (StaysMigratable (P.state device).lines r s)) }
{
    match stage_of(&device) {
        Ok(Layout::Version1) => upgrade(alloc, device),
        Ok(Layout::Halfway) => finish(alloc, device),
        Ok(Layout::Version2) => Ok(device),
        Err(refusal) => Err((refusal, device)),
    }
}

/// An image that can be migrated on has its map at its position, at whatever stage it is.
pub fn migratable_images_keep_their_map()
    ensures { (lines : ℕ) (r : CommitRecord) (s : Keyspace) (image : Image) → StaysMigratable lines r s image → KeepsMap lines r.position s image }
{}

/// Makes an image of version 1 one of version 2. Errors as at `migrate`, but for those of the superblock.
fn upgrade<P: Pmem>(alloc: Global, device: P) -> Result<P, (Refusal, P)>
    requires settled { (word : ℕ) → Only ((P.state device).words word) (image_of (P.state device).words word) }
    requires many { MIN_LINES ≤ (P.state device).lines }
    requires whole { super_refusal Version1 (P.state device).lines (image_of (P.state device).words) ≡ None }
    ensures ok { IfOk result (λ after. (r : CommitRecord) (s : Keyspace) → IsOldImage (P.state device).lines r s (image_of (P.state device).words)
        → Leaves (P.state after) (IsMigrated (P.state device).lines r s)) }
    ensures only { OnOk result (CanBeMigrated (P.state device).lines (image_of (P.state device).words)) }
    ensures line_count { IfOk result (λ after. (P.state after).lines ≡ (P.state device).lines) }
    ensures synced { IfOk result (λ after. P.floor after ≡ moment (P.state after)) }
    ensures sound { IfOk result (λ after. (P.state after).failures ≡ (P.state device).failures) }
    ensures causes { IfErr result (λ refused. (refused.0 ≡ Refusal.Damaged)
        ⊎ ((refused.0 ≡ Refusal.Full) ⊎ ((refused.0 ≡ Refusal.Fault) ⊎ ((refused.0 ≡ Refusal.Exhausted) ⊎ (refused.0 ≡ Refusal.Memory))))) }
    ensures damaged { IfErr result (λ refused. refused.0 ≡ Refusal.Damaged → (refused.1 ≡ device)
        × ((r : CommitRecord) (s : Keyspace) → ¬ IsOldImage (P.state device).lines r s (image_of (P.state device).words))) }
    // a version is left in one of the last entries of an image that is still of version 1
    ensures full { IfErr result (λ refused. refused.0 ≡ Refusal.Full → (r : CommitRecord) (s : Keyspace)
        → IsOldImage (P.state device).lines r s (image_of (P.state device).words)
        → Leaves (P.state refused.1) (StaysOldWith (HasLastEntry (P.state device).lines) (P.state device).lines r s)) }
    // a counter is at its limit
    ensures exhausted { IfErr result (λ refused. refused.0 ≡ Refusal.Exhausted → (r : CommitRecord) (s : Keyspace)
        → IsOldImage (P.state device).lines r s (image_of (P.state device).words)
        → IsAtLimit (P.state device).lines r s (P.state refused.1)) }
    ensures fault { IfErr result (λ refused. refused.0 ≡ Refusal.Fault → (P.state device).failures < (P.state refused.1).failures) }
    ensures no_fault { IfErr result (λ refused. (refused.0 ≡ Refusal.Fault → ⊥) → (P.state refused.1).failures ≡ (P.state device).failures) }
    ensures moments { (r : CommitRecord) (s : Keyspace) → IsOldImage (P.state device).lines r s (image_of (P.state device).words)
        → MatchResult result
        (λ after. LeavesOnly (P.state device) (P.state after) (StaysMigratable (P.state device).lines r s))
        (λ refused. LeavesOnly (P.state device) (P.state refused.1) (StaysMigratable (P.state device).lines r s)) }
{
    let role = match read_current(&device) {
        Ok(current) => current.role,
        Err(refusal) => return Err((refusal, device)),
    };
    match vacate(alloc, device, role) {
        Ok((device, current)) => {
            let mut device = device;
            match switch(&mut device, &current) {
                Ok(()) => Ok(device),
                Err(refusal) => Err((refusal, device)),
            }
        }
        Err((refusal, device)) => Err((of_its_role(refusal), device)),
    }
}

/// Why an image is refused that was to be reopened in the role of its record: another role is only told of one that is damaged.
fn of_its_role(refusal: Refusal) -> Refusal
    ensures wrong { refusal ≡ Refusal.WrongRole → result ≡ Refusal.Damaged }
    ensures other { (refusal ≡ Refusal.WrongRole) ⊎ (result ≡ refusal) }
{
    match refusal {
        Refusal::WrongRole => Refusal::Damaged,
        _ => refusal,
    }
}

/// Makes an image that is halfway one of version 2, after it has read it by all rules. Errors as at `migrate`, but for those of the superblock and `Full`;
/// `Memory` comes before anything is changed.
fn finish<P: Pmem>(alloc: Global, device: P) -> Result<P, (Refusal, P)>
    requires settled { (word : ℕ) → Only ((P.state device).words word) (image_of (P.state device).words word) }
    requires many { MIN_LINES ≤ (P.state device).lines }
    requires whole { super_refusal Halfway (P.state device).lines (image_of (P.state device).words) ≡ None }
    requires stage { HasSuperblock Halfway (P.state device).lines (image_of (P.state device).words) }
    ensures ok { IfOk result (λ after. (r : CommitRecord) (s : Keyspace) → IsHalfwayImage (P.state device).lines r s (image_of (P.state device).words)
        → Leaves (P.state after) (IsMigrated (P.state device).lines r s)) }
    ensures only { OnOk result (CanBeMigrated (P.state device).lines (image_of (P.state device).words)) }
    // where it breaks a rule, nothing is changed
    ensures broken { ((r : CommitRecord) (s : Keyspace) → ¬ IsHalfwayImage (P.state device).lines r s (image_of (P.state device).words))
        → (result ≡ Err (Refusal.Damaged, device)) ⊎ (result ≡ Err (Refusal.Memory, device)) }
    ensures line_count { IfOk result (λ after. (P.state after).lines ≡ (P.state device).lines) }
    ensures synced { IfOk result (λ after. P.floor after ≡ moment (P.state after)) }
    ensures sound { IfOk result (λ after. (P.state after).failures ≡ (P.state device).failures) }
    ensures causes { IfErr result (λ refused. (refused.0 ≡ Refusal.Damaged)
        ⊎ ((refused.0 ≡ Refusal.Fault) ⊎ ((refused.0 ≡ Refusal.Exhausted) ⊎ (refused.0 ≡ Refusal.Memory)))) }
    ensures damaged { IfErr result (λ refused. refused.0 ≡ Refusal.Damaged → (refused.1 ≡ device)
        × ((r : CommitRecord) (s : Keyspace) → ¬ IsHalfwayImage (P.state device).lines r s (image_of (P.state device).words))) }
    ensures memory { IfErr result (λ refused. refused.0 ≡ Refusal.Memory → refused.1 ≡ device) }
    // a counter is at its limit
    ensures exhausted { IfErr result (λ refused. refused.0 ≡ Refusal.Exhausted → (r : CommitRecord) (s : Keyspace)
        → IsHalfwayImage (P.state device).lines r s (image_of (P.state device).words)
        → IsAtLimit (P.state device).lines r s (P.state refused.1)) }
    ensures fault { IfErr result (λ refused. refused.0 ≡ Refusal.Fault → (P.state device).failures < (P.state refused.1).failures) }
    ensures no_fault { IfErr result (λ refused. (refused.0 ≡ Refusal.Fault → ⊥) → (P.state refused.1).failures ≡ (P.state device).failures) }
    ensures moments { (r : CommitRecord) (s : Keyspace) → IsHalfwayImage (P.state device).lines r s (image_of (P.state device).words)
        → MatchResult result
        (λ after. LeavesOnly (P.state device) (P.state after) (StaysMigratable (P.state device).lines r s))
        (λ refused. LeavesOnly (P.state device) (P.state refused.1) (StaysMigratable (P.state device).lines r s)) }
{
    let current = match read_halfway(alloc, &device) {
        Ok(current) => current,
        Err(refusal) => return Err((refusal, device)),
    };
    let mut device = device;
    match go_on(&mut device, &current) {
        Ok(()) => Ok(device),
        Err(refusal) => Err((refusal, device)),
    }
}

/// Reads an image that is halfway by all rules of the format, as `inspect` does, and returns its record.
///
/// # Errors
///
/// `Damaged` where a rule is broken, or where the record has a gap, which no migration leaves; `Memory` if an allocation was refused.
fn read_halfway<P: Pmem>(alloc: Global, device: &P) -> Result<Record, Refusal>
    requires { super_refusal Halfway (P.state device.now).lines (image_of (P.state device.now).words) ≡ None }
    ensures ok { IfOk result (λ r. HasGapless (P.state device.now).lines (image_of (P.state device.now).words) r) }
    ensures damaged { IsErrOf result Refusal.Damaged → (r : CommitRecord) → ¬ HasGapless (P.state device.now).lines (image_of (P.state device.now).words) r }
    ensures causes { IfErr result (λ refusal. (refusal ≡ Refusal.Damaged) ⊎ (refusal ≡ Refusal.Memory)) }
{
    let (current, _) = inspect(alloc, device, Layout::Halfway)?;
    if current.gaps.is_empty() {
        Ok(current)
    } else {
        Err(Refusal::Damaged)
    }
}

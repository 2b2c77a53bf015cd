//! The number of the pair that an image belongs to, by which the two nodes of a pair know each other. Nothing else that an image holds depends on it.
ghost use Rattle.std.specs.Prelude.{◌≡◌, ◌≢◌, ◌⊎◌, ℕ, ◌<◌, Ok, Err, IfOk, IfErr, OnOk, OnErr};
ghost use Rattle.kv_types.specs.Keyspace.{Keyspace};
ghost use Rattle.kv_types.specs.declared.refusal.Refusal.{Refusal as Cause};
ghost use Rattle.kv_types.specs.declared.refusal.Refusal.TheVariants.{Fault as Faulted, WrongPair};
ghost use Rattle.pmem.specs.Device.{Only, moment};
ghost use Rattle.pmem.specs.Crash.{image_of};
ghost use Rattle.pmem.specs.Runs.{LeavesOnly};
ghost use Rattle.model.specs.declared.image.TheConstants.{COUNTER_LIMIT};
ghost use Rattle.model.specs.declared.layout.Layout.{Layout};
ghost use Rattle.model.specs.declared.record.Record.{Record as CommitRecord};
ghost use Rattle.model.specs.declared.record.Role.{Role as NodeRole};
ghost use Rattle.model.specs.declared.record.Role.TheVariants.{Newcomer, Primary, Standby};
ghost use Rattle.model.specs.Group.{Contents};
ghost use Rattle.model.specs.Image.{Image, HasRecord, HasSuperblock, entries_of_lines, version_at};
ghost use Rattle.heap_layout.specs.Superblock.{super_refusal};
ghost use Rattle.heap_layout.specs.Versions.{counted_below, gapped_below};
ghost use Rattle.wbl_engine.specs.Contents.{IsDurable, Keeps};
ghost use Rattle.wbl_engine.specs.Inspecting.{live_below};
ghost use Rattle.wbl_engine.specs.Lawful.{IsUndamaged};
ghost use Rattle.wbl_engine.specs.Reopening.{RefusesReading, RefusesReopening, layout_in};
ghost use Rattle.wbl_engine.specs.Restarting.{IsReopened};
ghost use Rattle.wbl_migrate.specs.Migrating.{IsImageOf, IsMigratable};
ghost use Rattle.wbl_migrate.specs.Steps.{KeepsOthers, Leaves};
ghost use Rattle.images.specs.Pair.{IsButForPair, IsNumbering, pair_in};

use crate::serve_error::ServeError;
use kv_types::Refusal;
use model::{COUNTER_LIMIT, Role};
use pmem::{Pmem, persist_durably};
use std::random::RandomSource;

/// The word of the superblock that holds the number, in images of each version.
pub const PAIR_WORD: u64 = 6;

/// What stands there in an image that has none: a standby's or a newcomer's that has taken no frame yet, or one of a release that knew no numbers.
pub const NO_PAIR: u64 = 0;

/// The number of a new image for this role: a primary's begins a pair, whose number is drawn; any other belongs to none yet. Only `Random`.
pub fn new_pair<N: RandomSource>(rt: &N, role: Role) -> Result<u64, ServeError>
    ensures primary { role ≡ Primary → IfOk result (λ pair. (0 < pair) × (pair < COUNTER_LIMIT)) }
    ensures standby { role ≡ Standby → result ≡ Ok NO_PAIR }
    ensures newcomer { role ≡ Newcomer → result ≡ Ok NO_PAIR }
{
    match role {
        Role::Primary => draw_pair(rt),
        Role::Standby => Ok(NO_PAIR),
        Role::Newcomer => Ok(NO_PAIR),
    }
}

/// A number for a new pair, of the system's randomness. Only `Random`.
fn draw_pair<N: RandomSource>(rt: &N) -> Result<u64, ServeError>
    ensures { IfOk result (λ pair. (0 < pair) × (pair < COUNTER_LIMIT)) }
{
    let mut bytes = [0; 8];
    match rt.fill_bytes(&mut bytes) {
        Ok(()) => Ok(1 + u64::from_le_bytes(bytes) % (COUNTER_LIMIT - 1)),
        Err(error) => Err(ServeError::Random(error)),
    }
}

/// The number of the image on this device.
pub fn pair_of<P: Pmem>(device: &P) -> u64
    requires { 0 < (P.state device.now).lines }
    ensures { result ≡ pair_in (image_of (P.state device.now).words) }
{
    device.load(PAIR_WORD)
}

/// Writes the number of the image on this device, whatever it was, under a fence of its own, and syncs. What the image holds besides stays as it is.
///
/// At any moment a crash leaves the number from before or the new one. On `Fault`, the only refusal, a fence or the sync has failed, and a crash may leave
/// either.
pub fn write_pair<P: Pmem>(device: &mut P, pair: u64) -> Result<(), Refusal>
    requires { 0 < (P.state device.old).lines }
    ensures written { OnOk result (Only ((P.state device.new).words PAIR_WORD) pair) }
    ensures durable { OnOk result (P.floor device.new ≡ moment (P.state device.new)) }
    ensures sound { OnOk result ((P.state device.new).failures ≡ (P.state device.old).failures) }
    ensures cause { IfErr result (λ refusal. refusal ≡ Faulted) }
    ensures fault { OnErr result ((P.state device.old).failures < (P.state device.new).failures) }
    ensures elsewhere { KeepsOthers (P.state device.old) (P.state device.new) (λ word. word ≡ PAIR_WORD) }
    ensures moments { LeavesOnly (P.state device.old) (P.state device.new) (IsNumbering (P.state device.old).words pair) }
    // whatever record and keyspace it has
    ensures image { (layout : Layout) (lines : ℕ) (r : CommitRecord) (s : Keyspace) → Leaves (P.state device.old) (IsImageOf layout lines r s)
        → LeavesOnly (P.state device.old) (P.state device.new) (IsImageOf layout lines r s) }
    ensures contents { (contents : Contents) → IsDurable (P.state device.old) contents
        → LeavesOnly (P.state device.old) (P.state device.new) (Keeps contents) }
{
    match persist_durably(device, &[(PAIR_WORD, pair)], &[0]) {
        Ok(()) => Ok(()),
        Err(_) => Err(Refusal::Fault),
    }
}

/// Has the image on this device belong to this pair. A number is written over none alone, as `write_pair` does it; that of an image which has one is never
/// changed.
///
/// # Errors
///
/// `WrongPair` where the image belongs to another pair, with nothing changed; `Fault` as at `write_pair`.
pub fn adopt_pair<P: Pmem>(device: &mut P, pair: u64) -> Result<(), Refusal>
    requires { 0 < (P.state device.old).lines }
    ensures adopted { OnOk result (pair_in (image_of (P.state device.new).words) ≡ pair) }
    ensures written { pair_in (image_of (P.state device.old).words) ≢ pair → OnOk result (Only ((P.state device.new).words PAIR_WORD) pair) }
    ensures certain { Only ((P.state device.old).words PAIR_WORD) (pair_in (image_of (P.state device.old).words))
        → OnOk result (Only ((P.state device.new).words PAIR_WORD) pair) }
    ensures durable { P.floor device.old ≡ moment (P.state device.old) → OnOk result (P.floor device.new ≡ moment (P.state device.new)) }
    ensures own { pair_in (image_of (P.state device.old).words) ≢ NO_PAIR → device.new ≡ device.old }
    ensures wrong { pair_in (image_of (P.state device.old).words) ≢ NO_PAIR → pair_in (image_of (P.state device.old).words) ≢ pair
        → result ≡ Err WrongPair }
    ensures cause { IfErr result (λ refusal. (refusal ≡ Faulted) ⊎ (refusal ≡ WrongPair)) }
    ensures fault { result ≡ Err Faulted → (P.state device.old).failures < (P.state device.new).failures }
    ensures elsewhere { KeepsOthers (P.state device.old) (P.state device.new) (λ word. word ≡ PAIR_WORD) }
    ensures moments { LeavesOnly (P.state device.old) (P.state device.new) (IsNumbering (P.state device.old).words pair) }
{
    let own = pair_of(device);
    if own == pair {
        return Ok(());
    }
    if own != NO_PAIR {
        return Err(Refusal::WrongPair);
    }
    write_pair(device, pair)
}

/// The device, whose image belongs to this pair then, as `adopt_pair` does it; on an error it is closed.
pub fn into_pair<P: Pmem + Drop>(device: P, pair: u64) -> Result<P, Refusal>
    requires some { 0 < (P.state device).lines }
    requires settled { (word : ℕ) → Only ((P.state device).words word) (image_of (P.state device).words word) }
    ensures adopted { IfOk result (λ left. pair_in (image_of (P.state left).words) ≡ pair) }
    ensures same { IfOk result (λ left. IsButForPair (image_of (P.state device).words) (image_of (P.state left).words)) }
    ensures settled { IfOk result (λ left. (word : ℕ) → Only ((P.state left).words word) (image_of (P.state left).words word)) }
    ensures lines { IfOk result (λ left. (P.state left).lines ≡ (P.state device).lines) }
    ensures durable { P.floor device ≡ moment (P.state device) → IfOk result (λ left. P.floor left ≡ moment (P.state left)) }
{
    let mut device = device;
    adopt_pair(&mut device, pair)?;
    Ok(device)
}

/// What an image holds does not depend on its number: with another one it is refused as before, and has the same record, the same versions and the same map,
/// and what is told of it and made of it when it is opened again is the same.
pub fn images_are_read_without_their_number()
    ensures superblock { (layout : Layout) (lines : ℕ) (base image : Image) → IsButForPair base image
        → HasSuperblock layout lines base → HasSuperblock layout lines image }
    ensures earned { (layout : Layout) (lines : ℕ) (base image : Image) → IsButForPair base image
        → super_refusal layout lines image ≡ super_refusal layout lines base }
    ensures version { (base image : Image) → IsButForPair base image → layout_in image ≡ layout_in base }
    ensures current { (lines : ℕ) (r : CommitRecord) (base image : Image) → IsButForPair base image → HasRecord lines r base → HasRecord lines r image }
    ensures undamaged { (lines : ℕ) (r : CommitRecord) (base image : Image) → IsButForPair base image → IsUndamaged lines r base → IsUndamaged lines r image }
    ensures versions { (lines : ℕ) (r : CommitRecord) (base image : Image) → IsButForPair base image → IsUndamaged lines r base
        → (i : ℕ) → i < entries_of_lines r.layout lines → version_at r image i ≡ version_at r base i }
    ensures map { (layout : Layout) (lines : ℕ) (r : CommitRecord) (s : Keyspace) (base image : Image) → IsButForPair base image
        → IsImageOf layout lines r s base → IsImageOf layout lines r s image }
    ensures migratable { (lines : ℕ) (r : CommitRecord) (s : Keyspace) (base image : Image) → IsButForPair base image
        → IsMigratable lines r s base → IsMigratable lines r s image }
    ensures contents { (contents : Contents) (base image : Image) → IsButForPair base image → Keeps contents base → Keeps contents image }
    ensures counted { (lines : ℕ) (r : CommitRecord) (base image : Image) → IsButForPair base image → IsUndamaged lines r base
        → counted_below r image (entries_of_lines r.layout lines) ≡ counted_below r base (entries_of_lines r.layout lines) }
    ensures gapped { (r : CommitRecord) (count : ℕ) (base image : Image) → IsButForPair base image → gapped_below r image count ≡ gapped_below r base count }
    ensures live { (r : CommitRecord) (count : ℕ) (base image : Image) → IsButForPair base image → live_below r image count ≡ live_below r base count }
    ensures refused { (layout : Layout) (lines : ℕ) (refusal : Cause) (base image : Image) → IsButForPair base image
        → RefusesReading layout lines base refusal → RefusesReading layout lines image refusal }
    ensures not_opened { (layout : Layout) (lines : ℕ) (role : NodeRole) (refusal : Cause) (base image : Image) → IsButForPair base image
        → RefusesReopening layout lines base role refusal → RefusesReopening layout lines image role refusal }
    ensures opened { (lines : ℕ) (role : NodeRole) (contents : Contents) (base image : Image) → IsButForPair base image
        → IsReopened lines base role contents → IsReopened lines image role contents }
{}

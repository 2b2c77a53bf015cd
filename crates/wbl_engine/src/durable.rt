//! What the layers above know of an engine.
ghost use Rattle.std.specs.Prelude.{◌≡◌, ◌⊎◌, ℕ, ◌+◌, ◌<◌, ◌≤◌, [], length, Bool, true, false, None, Some, Err, IsOk, IsErrOf, IfOk, IfErr, OnOk, OnErr};
ghost use Rattle.pmem.specs.Device.{State, moment};
ghost use Rattle.pmem.specs.Runs.{LeavesOnly};
ghost use Rattle.model.specs.declared.group.Group.{Group};
ghost use Rattle.model.specs.declared.record.Role.TheVariants.{Newcomer};
ghost use Rattle.model.specs.Image.{Version};
ghost use Rattle.model.specs.Floor.{floored, floor_raised};
ghost use Rattle.model.specs.Group.{Contents, IsGroup, Versions, after_group, entries_of, with_puts};
ghost use Rattle.model.specs.declared.image.TheConstants.{COUNTER_LIMIT};
ghost use Rattle.wbl_engine.specs.CommittingAll.{AfterSome, AreGroups, CommitsEach, ExhaustsOne, KeepsSome, after_commits};
ghost use Rattle.wbl_engine.specs.Contents.{Keeps, IsDurable, Same, Exhausts};
ghost use Rattle.wbl_engine.specs.Copying.{AreStageable, Drops, ExhaustsCopy, IsCopied, LeavesCopy, after_copy};
ghost use Rattle.wbl_engine.specs.Fencing.{StopsAtFault};
ghost use Rattle.wbl_engine.specs.Freeing.{AreEnded, Clears, KeepsFreed, KeepsFreedOr, KeepsMap, KeepsVersions, after_free, cleared_contents, extents_of};
ghost use Rattle.wbl_engine.specs.Promoting.{ExhaustsPromotion, promoted};
ghost use Rattle.wbl_engine.specs.Raising.{ExhaustsRaising};
ghost use Rattle.wbl_engine.specs.Relocating.{ExhaustsRelocation, IsRelocation, KeepsKeyspace, after_relocation};

use crate::committed::Committed;
use crate::freeing::Freed;
use kv_types::{EntryNo, Extent, Refusal};
use model::{Group, Part, Put, Record};
use pmem::Pmem;
use std::alloc::{AllocError, Global};

/// An engine: its contents change by whole groups, and each crash leaves the contents before a call or those after it. Each call that changes them ends with
/// a sync of the device, so what `Ok` says is durable; a sync that failed is as a fence that failed. No call changes the moment that its device was asked to
/// keep.
pub trait Durable {
    type Device: Pmem;

    /// What the engine's device has gone through.
    ghost device: { Self → State };

    /// The floor of the engine's device: a crash leaves an image of a moment from there on.
    ghost device_floor: { Self → ℕ };

    /// What the engine holds. After a fault, what the call that faulted says.
    ghost contents: { Self → Contents };

    /// Parts of a copy are staged, or perhaps are. No other call writes a record then, but `clear_gap`, which leaves them.
    ghost is_copying: { Self → Bool };

    /// The versions that the parts of a copy have staged, by their entries. None of them counts yet, and to the contents their entries are free.
    ghost staged: { Self → Versions };

    /// A fence or a sync failed: each later commit returns `Refusal::Fault`, until the image is reopened.
    ghost is_faulted: { Self → Bool };

    /// Commits a group under one record, which has this floor if that is higher than the one before. `Fault` if a fence failed, in this call or an earlier
    /// one; `Exhausted` if a counter would reach 2^62, or the image is a newcomer's, with nothing changed. It allocates no memory.
    fn commit(&mut self, group: &Group, floor: u64) -> Result<Committed, Refusal>
        requires { IsGroup (contents self.old) group.now }
        ensures ok { IfOk result (λ committed. committed ≡ (contents self.new).current.position) }
        ensures moved { OnOk result (Same (after_group (floored floor (contents self.old)) group.now) (contents self.new)) }
        ensures durable { OnOk result (IsDurable (device self.new) (contents self.new)) }
        ensures fences { StopsAtFault device is_faulted self.old result self.new }
        ensures copy { LeavesCopy is_copying self.old self.new }
        ensures causes { IfErr result (λ refusal. (refusal ≡ Refusal.Fault) ⊎ (refusal ≡ Refusal.Exhausted)) }
        ensures exhausted { IsErrOf result Refusal.Exhausted → Exhausts (contents self.old) group.now × (self.new ≡ self.old) }
        ensures exhausts { is_faulted self.old ≡ false → Exhausts (contents self.old) group.now → result ≡ Err Refusal.Exhausted }
        ensures stays { OnErr result (Same (contents self.old) (contents self.new)) }
        // whole or not at all, at any moment of the call
        ensures moments { is_faulted self.old ≡ false → LeavesOnly (device self.old) (device self.new)
            (λ image. Keeps (contents self.old) image ⊎ Keeps (after_group (floored floor (contents self.old)) group.now) image) };

    /// Commits groups in order, each under a record of its own as `commit` does, with one sync behind the last: so they cost no more syncs than one of them. `Fault`
    /// if a fence or the sync failed, in this call or an earlier one; `Exhausted` if a counter of one of the records would reach 2^62, with nothing changed. It
    /// allocates no memory.
    fn commit_all(&mut self, groups: &[Group], floor: u64) -> Result<Committed, Refusal>
        requires { AreGroups (contents self.old) groups.now }
        ensures copy { LeavesCopy is_copying self.old self.new }
        ensures ok { IfOk result (λ committed. committed ≡ (contents self.new).current.position) }
        ensures moved { OnOk result (Same (after_commits floor (contents self.old) groups.now) (contents self.new)) }
        ensures durable { OnOk result (IsDurable (device self.new) (contents self.new)) }
        ensures fences { StopsAtFault device is_faulted self.old result self.new }
        ensures causes { IfErr result (λ refusal. (refusal ≡ Refusal.Fault) ⊎ (refusal ≡ Refusal.Exhausted)) }
        ensures exhausted { IsErrOf result Refusal.Exhausted → ExhaustsOne (contents self.old) groups.now × (self.new ≡ self.old) }
        ensures exhausts { is_faulted self.old ≡ false → ExhaustsOne (contents self.old) groups.now → result ≡ Err Refusal.Exhausted }
        // those that were stored before the fault
        ensures stays { OnErr result (AfterSome floor (contents self.old) groups.now (λ some. Same some (contents self.new))) }
        ensures each { OnOk result (CommitsEach floor (contents self.old) groups.now (device self.old) (device self.new)) }
        // each whole or not at all, and none without those before it, at any moment of the call
        ensures moments { is_faulted self.old ≡ false → LeavesOnly (device self.old) (device self.new)
            (KeepsSome floor (contents self.old) groups.now) };

    /// Commits a group under one record as `commit` does, and frees entries whose versions had ended before it, by the commit's own fences: the begin of each
    /// is erased with what the group stores. So the group takes no place of these versions. They are to have ended at the floor of the current record or
    /// below, since this floor comes with the group's record, behind the erasing. `Fault` if a fence failed, in this call or an earlier one; `Exhausted` if
    /// a counter would reach 2^62, with nothing changed. It allocates no memory.
    ///
    /// At any moment a crash leaves the contents without some of these versions, perhaps none and perhaps all; or what the group makes of the contents
    /// without all of them.
    fn commit_and_free(
        &mut self,
        group: &Group,
        entries: &[EntryNo],
        floor: u64,
    ) -> Result<Committed, Refusal>
        requires ended { AreEnded (contents self.old) entries.now }
        requires group { IsGroup (contents self.old) group.now }
        requires freed { IsGroup (after_free entries.now (contents self.old)) group.now }
        ensures ok { IfOk result (λ committed. committed ≡ (contents self.new).current.position) }
        ensures moved { OnOk result (Same (after_group (floored floor (after_free entries.now (contents self.old))) group.now) (contents self.new)) }
        ensures durable { OnOk result (IsDurable (device self.new) (contents self.new)) }
        ensures fences { StopsAtFault device is_faulted self.old result self.new }
        ensures copy { LeavesCopy is_copying self.old self.new }
        ensures causes { IfErr result (λ refusal. (refusal ≡ Refusal.Fault) ⊎ (refusal ≡ Refusal.Exhausted)) }
        // as loads return it
        ensures stays { IsErrOf result Refusal.Fault → is_faulted self.old ≡ false
            → Same (after_free entries.now (contents self.old)) (contents self.new) }
        ensures exhausted { IsErrOf result Refusal.Exhausted → Exhausts (contents self.old) group.now × (self.new ≡ self.old) }
        ensures exhausts { is_faulted self.old ≡ false → Exhausts (contents self.old) group.now → result ≡ Err Refusal.Exhausted }
        ensures moments { is_faulted self.old ≡ false → LeavesOnly (device self.old) (device self.new)
            (KeepsFreedOr entries.now (contents self.old) (after_group (floored floor (after_free entries.now (contents self.old))) group.now)) };

    /// Moves live versions, 1 to 64, to other places: commits the parts under one record and a stamp for each, at the position that the record has. Each part's
    /// one put makes a version again, with the same record, value and position, and the part names the entry that this ends. No new place is one that a
    /// version has. The map stays what it was. `Fault` if a fence failed, in this call or an earlier one; `Exhausted` if a counter would reach 2^62, with
    /// nothing changed. It allocates no memory.
    fn relocate(&mut self, parts: &[Part]) -> Result<(), Refusal>
        requires { IsRelocation (contents self.old) parts.now }
        ensures moved { OnOk result (Same (after_relocation (contents self.old) parts.now) (contents self.new)) }
        ensures map { OnOk result (KeepsKeyspace (contents self.old) (contents self.new)) }
        ensures durable { OnOk result (IsDurable (device self.new) (contents self.new)) }
        ensures fences { StopsAtFault device is_faulted self.old result self.new }
        ensures copy { LeavesCopy is_copying self.old self.new }
        ensures causes { IfErr result (λ refusal. (refusal ≡ Refusal.Fault) ⊎ (refusal ≡ Refusal.Exhausted)) }
        ensures exhausted { IsErrOf result Refusal.Exhausted
            → ExhaustsRelocation (length parts.now) (contents self.old).current × (self.new ≡ self.old) }
        ensures exhausts { is_faulted self.old ≡ false → ExhaustsRelocation (length parts.now) (contents self.old).current
            → result ≡ Err Refusal.Exhausted }
        ensures stays { OnErr result (Same (contents self.old) (contents self.new)) }
        // the versions lie in their old places or all in the new ones, at any moment of the call
        ensures moments { is_faulted self.old ≡ false → LeavesOnly (device self.old) (device self.new)
            (λ image. Keeps (contents self.old) image ⊎ Keeps (after_relocation (contents self.old) parts.now) image) };

    /// Frees entries whose versions have ended, at this floor or below: erases the begin of each, by one fence. If the record has a lower floor, a record of
    /// its own that has this one is written before, by two fences more. `Fault` if a fence failed, in this call or an earlier one; `Exhausted` if the
    /// number of that record would reach 2^62, or the image is a newcomer's, and `Memory` if an allocation was refused, both with nothing changed.
    ///
    /// At any moment a crash leaves the contents from before; or, under a record with the floor, the contents without some of these versions, perhaps none
    /// and perhaps all.
    fn free(&mut self, alloc: Global, entries: &[EntryNo], floor: u64) -> Result<Freed, Refusal>
        requires { AreEnded (contents self.old) entries.now }
        ensures entries { IfOk result (λ freed. freed.entries.items ≡ entries.now) }
        ensures extents { IfOk result (λ freed. freed.extents.items ≡ extents_of (contents self.old).versions entries.now) }
        ensures moved { OnOk result (Same (after_free entries.now (floor_raised floor (contents self.old))) (contents self.new)) }
        ensures map { OnOk result (KeepsMap (contents self.old) (contents self.new)) }
        ensures durable { OnOk result (IsDurable (device self.new) (contents self.new)) }
        ensures fences { StopsAtFault device is_faulted self.old result self.new }
        ensures copy { LeavesCopy is_copying self.old self.new }
        ensures causes { IfErr result (λ refusal. (refusal ≡ Refusal.Fault) ⊎ ((refusal ≡ Refusal.Exhausted) ⊎ (refusal ≡ Refusal.Memory))) }
        // as loads return it, under the record from before
        ensures stays { IsErrOf result Refusal.Fault → is_faulted self.old ≡ false
            → (((contents self.old).current.floor < floor) × Same (contents self.old) (contents self.new))
            ⊎ Same (after_free entries.now (contents self.old)) (contents self.new) }
        ensures memory { IsErrOf result Refusal.Memory → self.new ≡ self.old }
        ensures exhausted { IsErrOf result Refusal.Exhausted → ExhaustsRaising floor (contents self.old).current × (self.new ≡ self.old) }
        ensures exhausts { is_faulted self.old ≡ false → ExhaustsRaising floor (contents self.old).current → result ≡ Err Refusal.Exhausted }
        ensures moments { is_faulted self.old ≡ false
            → LeavesOnly (device self.old) (device self.new) (KeepsFreed entries.now (contents self.old) (floor_raised floor (contents self.old))) };

    /// Clears the oldest gap: erases each begin and each end that lies in it, and then writes the record without it. Without a gap nothing
    /// changes, and nothing is freed. `Fault` if a fence failed, in this call or an earlier one; `Exhausted` if the number of the record would
    /// reach 2^62, and `Memory` if an allocation was refused, both with nothing changed.
    fn clear_gap(&mut self, alloc: Global) -> Result<Freed, Refusal>
        ensures none { is_faulted self.old ≡ false → (contents self.old).current.gaps.items ≡ []
            → IsOk result × IfOk result (λ freed. freed.entries.items ≡ []) × (self.new ≡ self.old) }
        ensures clears { 0 < length (contents self.old).current.gaps.items
            → IfOk result (λ freed. Clears (contents self.old) freed.entries.items (contents self.new)) }
        ensures extents { IfOk result (λ freed. freed.extents.items ≡ []) }
        ensures durable { OnOk result (IsDurable (device self.new) (contents self.new)) }
        ensures fences { StopsAtFault device is_faulted self.old result self.new }
        ensures copying { is_copying self.new ≡ is_copying self.old }
        ensures staged { OnOk result ((i : ℕ) → staged self.new i ≡ staged self.old i) }
        ensures causes { IfErr result (λ refusal. (refusal ≡ Refusal.Fault) ⊎ ((refusal ≡ Refusal.Exhausted) ⊎ (refusal ≡ Refusal.Memory))) }
        ensures stays { IsErrOf result Refusal.Fault → KeepsVersions (contents self.old) (contents self.new) }
        ensures memory { IsErrOf result Refusal.Memory → self.new ≡ self.old }
        ensures exhausted { IsErrOf result Refusal.Exhausted → (0 < length (contents self.old).current.gaps.items)
            × (COUNTER_LIMIT ≤ (contents self.old).current.number + 1) × (self.new ≡ self.old) }
        ensures exhausts { is_faulted self.old ≡ false → 0 < length (contents self.old).current.gaps.items
            → COUNTER_LIMIT ≤ (contents self.old).current.number + 1 → result ≡ Err Refusal.Exhausted }
        // the versions stay, at any moment of the call
        ensures moments { is_faulted self.old ≡ false → LeavesOnly (device self.old) (device self.new)
            (λ image. Keeps (contents self.old) image ⊎ Keeps (cleared_contents (contents self.old)) image) };

    /// Promotes the image: writes one record of the next epoch, with a primary's role and the same position, stamps and gaps. `Fault` if a fence
    /// failed, in this call or an earlier one; `Exhausted` if the record's number or its epoch would reach 2^62, or the image is a newcomer's, with nothing
    /// changed. It allocates no memory.
    fn promote(&mut self) -> Result<(), Refusal>
        ensures moved { OnOk result (Same (promoted (contents self.old)) (contents self.new)) }
        ensures durable { OnOk result (IsDurable (device self.new) (contents self.new)) }
        ensures fences { StopsAtFault device is_faulted self.old result self.new }
        ensures copy { LeavesCopy is_copying self.old self.new }
        ensures causes { IfErr result (λ refusal. (refusal ≡ Refusal.Fault) ⊎ (refusal ≡ Refusal.Exhausted)) }
        ensures exhausted { IsErrOf result Refusal.Exhausted → ExhaustsPromotion (contents self.old).current × (self.new ≡ self.old) }
        ensures exhausts { is_faulted self.old ≡ false → ExhaustsPromotion (contents self.old).current → result ≡ Err Refusal.Exhausted }
        ensures stays { OnErr result (Same (contents self.old) (contents self.new)) }
        // the standby's image before or the primary's after, at any moment of the call
        ensures moments { is_faulted self.old ≡ false → LeavesOnly (device self.old) (device self.new)
            (λ image. Keeps (contents self.old) image ⊎ Keeps (promoted (contents self.old)) image) };

    /// Stages a part of a copy, whose versions are made at this position: stores the puts, flushes their lines, and fences. All parts of a copy have one
    /// stamp, the next one of the record, so nothing of them counts before `commit_staged`; a crash before that leaves the newcomer that was there, and a
    /// reopening makes a gap of the stamp. `Fault` if a fence failed, in this call or an earlier one. It allocates no memory.
    fn stage(&mut self, puts: &[Put], position: u64) -> Result<(), Refusal>
        requires { AreStageable (contents self.old) (staged self.old) puts.now }
        ensures staged { OnOk result ((i : ℕ) → staged self.new i ≡ with_puts position puts.now (staged self.old) i) }
        ensures copying { OnOk result (is_copying self.new ≡ true) }
        ensures durable { OnOk result (IsDurable (device self.new) (contents self.new)) }
        ensures fences { StopsAtFault device is_faulted self.old result self.new }
        ensures causes { IfErr result (λ refusal. refusal ≡ Refusal.Fault) }
        ensures stays { Same (contents self.old) (contents self.new) }
        // the newcomer without a copy, at any moment of the call
        ensures moments { is_faulted self.old ≡ false → LeavesOnly (device self.old) (device self.new) (Keeps (contents self.old)) };

    /// Ends a copy: writes one record with its stamp, this position and the role of a standby, so that all that is staged counts, and there is nothing else.
    /// Where nothing is staged the copy is empty. `Fault` if a fence failed, in this call or an earlier one; `Exhausted` if a counter would reach 2^62, with
    /// nothing changed. It allocates no memory.
    fn commit_staged(&mut self, position: u64) -> Result<Committed, Refusal>
        requires { IsCopied (contents self.old) (staged self.old) position }
        ensures ok { IfOk result (λ committed. committed ≡ position) }
        ensures moved { OnOk result (Same (after_copy (contents self.old) (staged self.old) position) (contents self.new)) }
        ensures ended { OnOk result (is_copying self.new ≡ false) }
        ensures durable { OnOk result (IsDurable (device self.new) (contents self.new)) }
        ensures fences { StopsAtFault device is_faulted self.old result self.new }
        ensures causes { IfErr result (λ refusal. (refusal ≡ Refusal.Fault) ⊎ (refusal ≡ Refusal.Exhausted)) }
        ensures exhausted { IsErrOf result Refusal.Exhausted → ExhaustsCopy (contents self.old).current position × (self.new ≡ self.old) }
        ensures exhausts { is_faulted self.old ≡ false → ExhaustsCopy (contents self.old).current position → result ≡ Err Refusal.Exhausted }
        ensures stays { OnErr result (Same (contents self.old) (contents self.new)) }
        // the newcomer without a copy or the standby with all of it, at any moment of the call
        ensures moments { is_faulted self.old ≡ false → LeavesOnly (device self.old) (device self.new)
            (λ image. Keeps (contents self.old) image ⊎ Keeps (after_copy (contents self.old) (staged self.old) position) image) };

    /// Drops what is staged: erases the begin of each of its versions, by one fence, and hands their entries and extents back. A copy that is begun anew has
    /// the same stamp, which is right since none of the zeros can be lost by then. `Fault` if a fence failed, in this call or an earlier one; `Memory` if an
    /// allocation was refused, with nothing changed.
    fn drop_staged(&mut self, alloc: Global) -> Result<Freed, Refusal>
        ensures freed { IfOk result (λ freed. Drops (staged self.old) freed.entries.items freed.extents.items) }
        ensures ended { OnOk result (is_copying self.new ≡ false) }
        ensures durable { OnOk result (IsDurable (device self.new) (contents self.new)) }
        ensures fences { StopsAtFault device is_faulted self.old result self.new }
        ensures causes { IfErr result (λ refusal. (refusal ≡ Refusal.Fault) ⊎ (refusal ≡ Refusal.Memory)) }
        ensures memory { IsErrOf result Refusal.Memory → self.new ≡ self.old }
        ensures stays { Same (contents self.old) (contents self.new) }
        // the newcomer without a copy, at any moment of the call
        ensures moments { is_faulted self.old ≡ false → LeavesOnly (device self.old) (device self.new) (Keeps (contents self.old)) };

    /// The lines that the version in this entry takes.
    fn extent_of(&self, entry: EntryNo) -> Extent
        requires sound { is_faulted self.now ≡ false }
        requires within { entry.0 < entries_of (contents self.now) }
        ensures { (version : Version) → (contents self.now).versions entry.0 ≡ Some version
            → (result.first_line ≡ version.first_line) × (result.lines ≡ version.lines) };

    /// The lines that the versions in these entries take, in order. `AllocError` if an allocation was refused.
    fn extents_of(&self, alloc: Global, entries: &[EntryNo]) -> Result<Vec<Extent>, AllocError>
        requires sound { is_faulted self.now ≡ false }
        requires ended { AreEnded (contents self.now) entries.now }
        ensures { IfOk result (λ extents. extents.items ≡ extents_of (contents self.now).versions entries.now) };

    /// The current record.
    fn record(&self) -> &Record
        ensures { result.now ≡ (contents self.now).current };

    /// The position up to which everything is durable.
    fn position(&self) -> u64
        ensures { result ≡ (contents self.now).current.position };

    /// The position up to which everything is durable, as the last commit, the reopening or the formatting established it.
    fn committed(&self) -> Committed
        requires { IsDurable (device self.now) (contents self.now) }
        ensures { result ≡ (contents self.now).current.position };

    /// How many lines the image has.
    fn lines(&self) -> u64
        ensures { result ≡ (contents self.now).lines };

    /// The device, unchanged.
    fn into_device(self) -> Self::Device
        ensures { Self.Device.state result ≡ device self };

    /// The image fills its device.
    ghost sized: { (engine : Self) → (contents engine).lines ≡ (device engine).lines };

    /// Nothing is staged where no copy is under way.
    ghost idle: { (engine : Self) → is_copying engine ≡ false → (i : ℕ) → staged engine i ≡ None };

    /// Copies are a newcomer's.
    ghost copies: { (engine : Self) → is_faulted engine ≡ false → is_copying engine ≡ true → (contents engine).current.role ≡ Newcomer };

    /// The device of a sound engine is synced: a crash leaves an image of its present words, of which `IsDurable` speaks.
    ghost synced: { (engine : Self) → is_faulted engine ≡ false → device_floor engine ≡ moment (device engine) };
}

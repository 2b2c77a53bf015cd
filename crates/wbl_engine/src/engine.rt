//! The engine: a device with an image, and the image's current record.
ghost use Rattle.std.specs.Prelude.{◌≡◌, ◌↔◌, true, false, IsTrue};
ghost use Rattle.pmem.specs.Device.{moment};
ghost use Rattle.wbl_engine.specs.AtRest.{IsAtRest, at_rest_prop, synced_prop};
ghost use Rattle.wbl_engine.specs.Copying.{IsHalf, half_prop};

use crate::clearing::{clear_oldest, has_no_gap, is_last, oldest_gap, stamped_in};
use crate::commit::commit_group;
use crate::commit_all::{commit_groups, exhausts_one};
use crate::commit_and_free::commit_and_erase;
use crate::committed::Committed;
use crate::copying::{copied_record, end_copy, erase_copy, stage_part, staged_in};
use crate::durable::Durable;
use crate::format::{first_record, format_device};
use crate::freeing::{Freed, extent_of, freed_by, named_extents};
use crate::inspecting::read_record;
use crate::promoting::{promoted_record, write_promoted};
use crate::raising::{free_under, raised_record};
use crate::relocating::{commit_relocation, relocated_record};
use crate::reopening::{layout_in, reopen_device};
use crate::restarting::Restarting;
use crate::successor::next_record;
use heap_layout::Versions;
use kv_types::{EntryNo, Extent, Refusal};
use model::{Group, Layout, MAX_LINES, MIN_LINES, Part, Put, Record, Role};
use pmem::{Crashing, Fault, Pmem};
use std::alloc::{AllocError, Global};

/// An engine over a device. It keeps the current record but no list.
#[derive(Drop)]
pub struct WblEngine<P: Pmem> {
    device: P,
    /// The current record. After a fault, the record before the commit that faulted.
    current: Record,
    /// A fence or a sync failed: the image has to be reopened.
    faulted: bool,
    /// Parts of a copy are staged: no record is written but the one that ends the copy.
    copying: bool,
    ghost at_rest: { faulted ≡ false → copying ≡ false → IsAtRest current (P.state device) } by { at_rest_prop faulted copying current (P.state device) },
    ghost half: { faulted ≡ false → copying ≡ true → IsHalf current (P.state device) } by { half_prop faulted copying current (P.state device) },
    // no call answers before what it wrote is durable
    ghost synced: { faulted ≡ false → P.floor device ≡ moment (P.state device) } by { synced_prop faulted (P.floor device) (moment (P.state device)) },
}

impl<P: Pmem> WblEngine<P> {
    ghost use Rattle.std.specs.Prelude.{◌≡◌, ◌⊎◌, ◌<◌, false, IfOk, IfErr, MatchResult};
    ghost use Rattle.pmem.specs.Runs.{LeavesOnly};
    ghost use Rattle.model.specs.declared.image.TheConstants.{COUNTER_LIMIT, MIN_LINES, MAX_LINES};
    ghost use Rattle.wbl_engine.specs.Contents.{IsDurable, IsNew};
    ghost use Rattle.wbl_engine.specs.Formatting.{IsFormatting};
    ghost use Rattle.std.specs.Prelude.{ℕ, Some, Err};
    ghost use Rattle.kv_types.specs.declared.refusal.Refusal.{Refusal as Cause};
    ghost use Rattle.pmem.specs.Device.{Only};
    ghost use Rattle.pmem.specs.Crash.{image_of};
    ghost use Rattle.model.specs.declared.record.Record.{Record as CommitRecord};
    ghost use Rattle.heap_layout.specs.Superblock.{super_refusal};
    ghost use Rattle.wbl_engine.specs.Lawful.{IsUndamaged};
    ghost use Rattle.wbl_engine.specs.Reopening.{IsShown, RefusesReopening, Reopens, StaysReadable};

    /// Formats a device for this role, under this epoch. `WrongSize` if it has fewer than 4,096 lines or more than 2^31, with nothing changed; `Fault` if a
    /// fence failed. A refusal hands the device back. It allocates no memory.
    ///
    /// At any moment a crash leaves an image from before, the new one whole, or one without the magic.
    pub fn format(device: P, role: Role, epoch: u64) -> Result<WblEngine<P>, (Refusal, P)>
        requires some_epoch { 0 < epoch }
        requires epoch { epoch < COUNTER_LIMIT }
        ensures new { IfOk result (λ engine. IsNew (P.state device).lines role epoch (⟦<WblEngine<P> as Durable>⟧.contents engine)) }
        ensures durable { IfOk result (λ engine.
            IsDurable (⟦<WblEngine<P> as Durable>⟧.device engine) (⟦<WblEngine<P> as Durable>⟧.contents engine)) }
        ensures sound { IfOk result (λ engine. (⟦<WblEngine<P> as Durable>⟧.is_faulted engine ≡ false)
            × ((⟦<WblEngine<P> as Durable>⟧.device engine).failures ≡ (P.state device).failures)) }
        ensures idle { IfOk result (λ engine. ⟦<WblEngine<P> as Durable>⟧.is_copying engine ≡ false) }
        ensures causes { IfErr result (λ refused. (refused.0 ≡ Refusal.Fault) ⊎ (refused.0 ≡ Refusal.WrongSize)) }
        ensures size { IfErr result (λ refused. refused.0 ≡ Refusal.WrongSize → refused.1 ≡ device) }
        ensures sized { IfErr result (λ refused. refused.0 ≡ Refusal.WrongSize
            → ((P.state device).lines < MIN_LINES) ⊎ (MAX_LINES < (P.state device).lines)) }
        ensures wrong { ((P.state device).lines < MIN_LINES) ⊎ (MAX_LINES < (P.state device).lines)
            → result ≡ Err (Refusal.WrongSize, device) }
        ensures fault { IfErr result (λ refused. refused.0 ≡ Refusal.Fault → (P.state device).failures < (P.state refused.1).failures) }
        ensures moments { MatchResult result
            (λ engine. LeavesOnly (P.state device) (⟦<WblEngine<P> as Durable>⟧.device engine)
            (IsFormatting (P.state device).words (P.state device).lines role epoch))
            (λ refused. LeavesOnly (P.state device) (P.state refused.1) (IsFormatting (P.state device).words (P.state device).lines role epoch)) }
    {
        let lines = device.lines();
        if lines < MIN_LINES || MAX_LINES < lines {
            return Err((Refusal::WrongSize, device));
        }
        let mut device = device;
        let current = first_record(role, epoch);
        match format_device(&mut device, &current) {
            Ok(()) => Ok(WblEngine {
                device,
                current,
                faulted: false,
                copying: false,
            }),
            Err(Fault) => Err((Refusal::Fault, device)),
        }
    }

    /// Reopens the image of a device, which is to have this layout, in its role: no stamp counts from then on that a crash may have cut off.
    /// Returns the engine, and all versions of the image. Where the record holds as many gaps as it can, the oldest is cleared first.
    ///
    /// At any moment a crash leaves an undamaged image with the same versions, which can be reopened again.
    ///
    /// # Errors
    ///
    /// `WrongSize`, `BadMagic`, `BadVersion` or `Damaged` by the rules of the format; `WrongRole` where the image is of the other role;
    /// `Exhausted` where a counter would reach 2^62; `Memory` if an allocation was refused: nothing is changed. `Fault` if a fence failed.
    /// Each hands the device back.
    pub fn reopen(
        alloc: Global,
        device: P,
        layout: Layout,
        role: Role,
    ) -> Result<(WblEngine<P>, Versions), (Refusal, P)>
        requires settled { (word : ℕ) → Only ((P.state device).words word) (image_of (P.state device).words word) }
        ensures reopens { IfOk result (λ o. Reopens (P.state device).lines (image_of (P.state device).words) role
            (⟦<WblEngine<P> as Durable>⟧.contents o.0) o.1.counted.items o.1.gapped.items) }
        ensures layout { IfOk result (λ o. (⟦<WblEngine<P> as Durable>⟧.contents o.0).current.layout ≡ layout) }
        ensures shown { IfOk result (λ o. IsShown (⟦<WblEngine<P> as Durable>⟧.contents o.0) o.1.counted.items o.1.gapped.items
            (image_of (⟦<WblEngine<P> as Durable>⟧.device o.0).words)) }
        ensures durable { IfOk result (λ o. IsDurable (⟦<WblEngine<P> as Durable>⟧.device o.0) (⟦<WblEngine<P> as Durable>⟧.contents o.0)) }
        ensures sound { IfOk result (λ o. (⟦<WblEngine<P> as Durable>⟧.is_faulted o.0 ≡ false)
            × ((⟦<WblEngine<P> as Durable>⟧.device o.0).failures ≡ (P.state device).failures)) }
        ensures idle { IfOk result (λ o. ⟦<WblEngine<P> as Durable>⟧.is_copying o.0 ≡ false) }
        ensures refused { IfErr result (λ refused. (refused.0 ≡ Refusal.Fault)
            ⊎ (RefusesReopening layout (P.state device).lines (image_of (P.state device).words) role refused.0 × (refused.1 ≡ device))) }
        ensures fault { IfErr result (λ refused. refused.0 ≡ Refusal.Fault → (P.state device).failures < (P.state refused.1).failures) }
        ensures superblock { (refusal : Cause) → super_refusal layout (P.state device).lines (image_of (P.state device).words) ≡ Some refusal
            → result ≡ Err (refusal, device) }
        ensures moments { (r : CommitRecord) → IsUndamaged (P.state device).lines r (image_of (P.state device).words)
            → MatchResult result
            (λ o. LeavesOnly (P.state device) (⟦<WblEngine<P> as Durable>⟧.device o.0)
            (StaysReadable (P.state device).lines r (image_of (P.state device).words)))
            (λ refused. LeavesOnly (P.state device) (P.state refused.1)
            (StaysReadable (P.state device).lines r (image_of (P.state device).words))) }
    {
        let mut device = device;
        match reopen_device(alloc, &mut device, layout, role) {
            Ok((current, versions)) => Ok((
                WblEngine {
                    device,
                    current,
                    faulted: false,
                    copying: false,
                },
                versions,
            )),
            Err(refusal) => Err((refusal, device)),
        }
    }
}

impl<P: Pmem> Durable for WblEngine<P> {
    type Device = P;

    ghost use Rattle.std.proofs.Common.{refl};
    ghost use Rattle.wbl_engine.specs.AtRest.{contents_of};
    ghost use Rattle.wbl_engine.specs.Copying.{idle, staged_of};

    ghost device = { λ engine. P.state engine.device };

    ghost device_floor = { λ engine. P.floor engine.device };

    ghost contents = { λ engine. contents_of engine.current (P.state engine.device) };

    ghost is_faulted = { λ engine. engine.faulted };

    ghost is_copying = { λ engine. engine.copying };

    ghost staged = { λ engine. staged_of engine.copying engine.current (P.state engine.device) };

    ghost sized = { λ engine. refl };

    ghost idle = { λ engine. idle engine.current (P.state engine.device) engine.copying };

    ghost copies = { λ engine sound copying. (engine.half sound copying).newcomer };

    ghost synced = { λ engine. engine.synced };

    fn commit(&mut self, group: &Group, floor: u64) -> Result<Committed, Refusal> {
        if self.faulted {
            return Err(Refusal::Fault);
        }
        if self.copying {
            return Err(Refusal::Exhausted);
        }
        let Some(next) = next_record(&self.current, group, floor) else {
            return Err(Refusal::Exhausted);
        };
        let position = next.position;
        match commit_group(&mut self.device, group, &self.current, &next) {
            Ok(()) => {
                self.current = next;
                Ok(Committed::at(position))
            }
            Err(Fault) => {
                self.faulted = true;
                Err(Refusal::Fault)
            }
        }
    }

    fn commit_all(&mut self, groups: &[Group], floor: u64) -> Result<Committed, Refusal> {
        if self.faulted {
            return Err(Refusal::Fault);
        }
        if groups.is_empty() {
            return Ok(Committed::at(self.current.position));
        }
        if self.copying || exhausts_one(&self.current, groups, floor) {
            return Err(Refusal::Exhausted);
        }
        let Ok(()) = commit_groups(&mut self.device, groups, &mut self.current, floor) else {
            self.faulted = true;
            return Err(Refusal::Fault);
        };
        Ok(Committed::at(self.current.position))
    }

    fn commit_and_free(
        &mut self,
        group: &Group,
        entries: &[EntryNo],
        floor: u64,
    ) -> Result<Committed, Refusal> {
        if self.faulted {
            return Err(Refusal::Fault);
        }
        if self.copying {
            return Err(Refusal::Exhausted);
        }
        let Some(next) = next_record(&self.current, group, floor) else {
            return Err(Refusal::Exhausted);
        };
        let position = next.position;
        match commit_and_erase(&mut self.device, group, entries, &self.current, &next) {
            Ok(()) => {
                self.current = next;
                Ok(Committed::at(position))
            }
            Err(Fault) => {
                self.faulted = true;
                Err(Refusal::Fault)
            }
        }
    }

    fn relocate(&mut self, parts: &[Part]) -> Result<(), Refusal> {
        if self.faulted {
            return Err(Refusal::Fault);
        }
        let Some(next) = relocated_record(&self.current, parts) else {
            return Err(Refusal::Exhausted);
        };
        let Ok(()) = commit_relocation(&mut self.device, parts, &self.current, &next) else {
            self.faulted = true;
            return Err(Refusal::Fault);
        };
        self.current = next;
        Ok(())
    }

    fn free(&mut self, alloc: Global, entries: &[EntryNo], floor: u64) -> Result<Freed, Refusal> {
        if self.faulted {
            return Err(Refusal::Fault);
        }
        let Some(next) = raised_record(&self.current, floor) else {
            return Err(Refusal::Exhausted);
        };
        if self.copying {
            // a newcomer has no version, so none of its entries has ended
            return Ok(Freed::none(alloc));
        }
        let freed = freed_by(alloc, &self.device, entries)?;
        let Ok(()) = free_under(&mut self.device, entries, &self.current, &next) else {
            self.faulted = true;
            return Err(Refusal::Fault);
        };
        self.current = next;
        Ok(freed)
    }

    fn clear_gap(&mut self, alloc: Global) -> Result<Freed, Refusal> {
        if self.faulted {
            return Err(Refusal::Fault);
        }
        if has_no_gap(&self.current) {
            return Ok(Freed::none(alloc));
        }
        if is_last(&self.current) {
            return Err(Refusal::Exhausted);
        }
        let stamped = stamped_in(
            alloc,
            &self.device,
            self.current.layout,
            oldest_gap(&self.current),
        )?;
        let Ok(next) = clear_oldest(&mut self.device, &self.current, &stamped) else {
            self.faulted = true;
            return Err(Refusal::Fault);
        };
        self.current = next;
        Ok(Freed {
            entries: stamped.begins,
            extents: Vec::new(alloc),
        })
    }

    fn promote(&mut self) -> Result<(), Refusal> {
        if self.faulted {
            return Err(Refusal::Fault);
        }
        if self.copying {
            return Err(Refusal::Exhausted);
        }
        let Some(next) = promoted_record(&self.current) else {
            return Err(Refusal::Exhausted);
        };
        let Ok(()) = write_promoted(&mut self.device, &self.current, &next) else {
            self.faulted = true;
            return Err(Refusal::Fault);
        };
        self.current = next;
        Ok(())
    }

    fn stage(&mut self, puts: &[Put], position: u64) -> Result<(), Refusal> {
        if self.faulted {
            return Err(Refusal::Fault);
        }
        let Ok(()) = stage_part(&mut self.device, puts, &self.current, position) else {
            self.faulted = true;
            return Err(Refusal::Fault);
        };
        self.copying = true;
        Ok(())
    }

    fn commit_staged(&mut self, position: u64) -> Result<Committed, Refusal> {
        if self.faulted {
            return Err(Refusal::Fault);
        }
        let Some(next) = copied_record(&self.current, position) else {
            return Err(Refusal::Exhausted);
        };
        let Ok(()) = end_copy(&mut self.device, &self.current, &next) else {
            self.faulted = true;
            return Err(Refusal::Fault);
        };
        self.current = next;
        self.copying = false;
        Ok(Committed::at(position))
    }

    fn drop_staged(&mut self, alloc: Global) -> Result<Freed, Refusal> {
        if self.faulted {
            return Err(Refusal::Fault);
        }
        if !self.copying {
            return Ok(Freed::none(alloc));
        }
        let freed = staged_in(alloc, &self.device, &self.current)?;
        let entries = freed.entries.as_slice();
        let Ok(()) = erase_copy(&mut self.device, entries, &self.current) else {
            self.faulted = true;
            return Err(Refusal::Fault);
        };
        self.copying = false;
        Ok(freed)
    }

    fn extent_of(&self, entry: EntryNo) -> Extent {
        extent_of(&self.device, entry)
    }

    fn extents_of(&self, alloc: Global, entries: &[EntryNo]) -> Result<Vec<Extent>, AllocError> {
        named_extents(alloc, &self.device, entries)
    }

    fn record(&self) -> &Record {
        &self.current
    }

    fn position(&self) -> u64 {
        self.current.position
    }

    fn committed(&self) -> Committed {
        Committed::at(self.current.position)
    }

    fn lines(&self) -> u64 {
        self.device.lines()
    }

    fn into_device(self) -> P {
        let WblEngine {
            device,
            current: _current,
            faulted: _,
            copying: _,
        } = self;
        device
    }
}

impl<P: Crashing> Restarting for WblEngine<P> {
    fn fail_at(&mut self, n: u64) {
        self.device.fail_at(n);
    }

    fn keep_at(&mut self, k: u64) {
        self.device.keep_at(k);
    }

    fn crash_kept(&mut self, picks: &[u64]) {
        Crashing::crash(&mut self.device, picks);
        self.faulted = true;
    }

    fn image_record(&self) -> Option<Record> {
        read_record(&self.device)
    }

    fn crash(&mut self, picks: &[u64]) {
        // this replaces an earlier request, so that the crash picks from the candidates of this moment
        self.device.keep_at(0);
        self.device.crash(picks);
        self.faulted = true;
    }

    fn restart(&mut self, alloc: Global, role: Role) -> Result<Versions, Refusal> {
        if self.device.lines() < MIN_LINES {
            return Err(Refusal::WrongSize);
        }
        let layout = layout_in(&self.device);
        match reopen_device(alloc, &mut self.device, layout, role) {
            Ok((current, versions)) => {
                self.current = current;
                self.faulted = false;
                self.copying = false;
                Ok(versions)
            }
            Err(refusal) => {
                self.faulted |= is_fault(refusal);
                Err(refusal)
            }
        }
    }
}

/// Whether the refusal says that a fence or a sync failed.
fn is_fault(refusal: Refusal) -> bool
    ensures { IsTrue result ↔ (refusal ≡ Refusal.Fault) }
{
    refusal == Refusal::Fault
}

//! A primary that goes on from its image.
ghost use Rattle.std.specs.Prelude.{◌≡◌, ◌⊎◌, ◌<◌, ℕ, [], false, OnOk, IfOk, IfErr, IsErrOf};
ghost use Rattle.pmem.specs.Device.{Only};
ghost use Rattle.pmem.specs.Crash.{image_of};
ghost use Rattle.pmem.specs.Runs.{LeavesOnly};
ghost use Rattle.model.specs.declared.record.Record.{Record as CommitRecord};
ghost use Rattle.placing.specs.Read.{Shows};
ghost use Rattle.group_commit.specs.declared.stage.Stage.TheVariants.{Ready};
ghost use Rattle.wbl_engine.specs.Contents.{IsDurable};
ghost use Rattle.wbl_engine.specs.Lawful.{IsUndamaged};
ghost use Rattle.wbl_engine.specs.Reopening.{RefusesReopening, StaysReadable, layout_in};
ghost use Rattle.wbl_engine.specs.Restarting.{IsReopened};
ghost use Rattle.mv_keyspace.specs.Table.{records};
ghost use Rattle.standby_stream.specs.Delta.{IsOpening, LeadsTo};
ghost use Rattle.primary.specs.Recalling.{AreKeyspaces, BackKeeps, DeltaLeads, ImageRecalls, Past};
ghost use Rattle.primary.specs.Resuming.{IsOver};
ghost use Rattle.primary.specs.Standing.{Stands};

use crate::primary::Primary;
use crate::resuming::{Resumed, resume};
use kv_types::Refusal;
use model::Work;
use mv_keyspace::Keyspace;
use pipes::{Inlet, LocalPipe};
use standby_stream::Opening;
use std::alloc::Global;
use std::hash::RandomState;
use wbl_engine::{Restarting, Role};

impl<E: Restarting, K: Keyspace + Drop> Primary<E, K> {
    /// Opens the image of a crashed primary again, and makes what serves from the versions there: nothing waits, and no seat is open. The versions that
    /// have ended are to be freed. Answers what a standby is told that is behind.
    ///
    /// # Errors
    ///
    /// As at `Committer::restart`, and `Memory` where a growth was refused after it: the image is the reopened one then.
    pub fn restart(&mut self, alloc: Global, hash_builder: RandomState) -> Result<Opening, Refusal>
        requires settled { (word : ℕ) → Only ((E.device self.old.back.committer.engine).words word) (image_of (E.device self.old.back.committer.engine).words word) }
        ensures stands { OnOk result (Stands E.device E.contents self.new) }
        ensures reopens { OnOk result (IsReopened (E.device self.old.back.committer.engine).lines (image_of (E.device self.old.back.committer.engine).words) Role.Primary
            (E.contents self.new.back.committer.engine)) }
        ensures shows { OnOk result (Shows (E.contents self.new.back.committer.engine) (image_of (E.device self.new.back.committer.engine).words)) }
        ensures durable { OnOk result (IsDurable (E.device self.new.back.committer.engine) (E.contents self.new.back.committer.engine)) }
        ensures sound { OnOk result (E.is_faulted self.new.back.committer.engine ≡ false) }
        ensures ready { OnOk result ((self.new.back.committer.stage ≡ Ready) × (self.new.back.committer.aside.items ≡ [])
            × (self.new.back.committer.local ≡ (E.contents self.new.back.committer.engine).current.position)) }
        ensures sequencer { OnOk result (IsOver (E.contents self.new.back.committer.engine) self.new.front.sequencer) }
        ensures work { OnOk result (self.new.back.work.items ≡ []) }
        ensures opening { IfOk result (λ opening. (opening.position ≡ (E.contents self.new.back.committer.engine).current.position)
            × IsOpening (E.contents self.new.back.committer.engine) opening) }
        ensures floor { IfOk result (λ opening. opening.floor ≡ (E.contents self.new.back.committer.engine).current.floor) }
        ensures leads { IfOk result (λ opening. LeadsTo (E.contents self.new.back.committer.engine) opening (records (self.new.front.sequencer).table)) }
        // what the image recalls of the past is kept, and what a standby is told leads from each position there
        ensures keeps { OnOk result ((past : Past) → AreKeyspaces past → ImageRecalls past (image_of (E.device self.old.back.committer.engine).words)
            → BackKeeps E.contents past self.new.back self.new.front.sequencer) }
        ensures delta { IfOk result (λ opening. (past : Past) → AreKeyspaces past → ImageRecalls past (image_of (E.device self.old.back.committer.engine).words)
            → DeltaLeads (E.contents self.new.back.committer.engine).current.position past opening) }
        ensures failures { ¬ IsErrOf result Refusal.Fault → (E.device self.new.back.committer.engine).failures ≡ (E.device self.old.back.committer.engine).failures }
        ensures refused { IfErr result (λ refusal. (refusal ≡ Refusal.Fault) ⊎ ((refusal ≡ Refusal.Memory)
            ⊎ (RefusesReopening (layout_in (image_of (E.device self.old.back.committer.engine).words)) (E.device self.old.back.committer.engine).lines
            (image_of (E.device self.old.back.committer.engine).words) Role.Primary refusal
            × (E.device self.new.back.committer.engine ≡ E.device self.old.back.committer.engine)))) }
        ensures fault { IsErrOf result Refusal.Fault → (E.device self.old.back.committer.engine).failures < (E.device self.new.back.committer.engine).failures }
        ensures lines { (E.device self.new.back.committer.engine).lines ≡ (E.device self.old.back.committer.engine).lines }
        ensures asked_moment { (E.device self.new.back.committer.engine).kept ≡ (E.device self.old.back.committer.engine).kept }
        ensures moments { (r : CommitRecord) → IsUndamaged (E.device self.old.back.committer.engine).lines r (image_of (E.device self.old.back.committer.engine).words)
            → LeavesOnly (E.device self.old.back.committer.engine) (E.device self.new.back.committer.engine)
            (StaysReadable (E.device self.old.back.committer.engine).lines r (image_of (E.device self.old.back.committer.engine).words)) }
        // and at any moment a crash leaves an image that recalls what this one does
        ensures leaves { (r : CommitRecord) (past : Past) → IsUndamaged (E.device self.old.back.committer.engine).lines r (image_of (E.device self.old.back.committer.engine).words)
            → ImageRecalls past (image_of (E.device self.old.back.committer.engine).words)
            → LeavesOnly (E.device self.old.back.committer.engine) (E.device self.new.back.committer.engine) (ImageRecalls past) }
    {
        let versions = self.back.committer.restart(alloc, Role::Primary)?;
        let (layout, lines) = (self.back.committer.layout(), self.back.committer.lines());
        let floor = self.back.floor();
        let at = (self.back.position(), self.back.epoch());
        let Resumed {
            sequencer,
            opening,
            keys: _,
        } = resume(alloc, layout, lines, versions, at, floor, hash_builder)?;
        drop_all(&mut self.back.work);
        self.front.sequencer = sequencer;
        Ok(opening)
    }
}

/// Drops all that waits.
fn drop_all(work: &mut LocalPipe<Work>)
    ensures { work.new.items ≡ [] }
{
    while !work.is_empty() {
        let _ = work.take();
    }
}

//! A primary that is made of its image.
ghost use Rattle.std.specs.Prelude.{◌≡◌, ◌⊎◌, ◌<◌, ◌≤◌, ℕ, [], false, IfOk, IfErr};
ghost use Rattle.pmem.specs.Device.{Only};
ghost use Rattle.pmem.specs.Crash.{image_of};
ghost use Rattle.model.specs.declared.image.TheConstants.{COUNTER_LIMIT, MAX_LINES};
ghost use Rattle.model.specs.declared.layout.TheConstants.{LAYOUT};
ghost use Rattle.model.specs.Image.{Image};
ghost use Rattle.group_commit.specs.declared.stage.Stage.TheVariants.{Ready};
ghost use Rattle.wbl_engine.specs.Contents.{IsDurable};
ghost use Rattle.wbl_engine.specs.Reopening.{RefusesReopening};
ghost use Rattle.wbl_engine.specs.Restarting.{IsReopened};
ghost use Rattle.placing.specs.Read.{AreOf};
ghost use Rattle.standby_stream.specs.Delta.{HaveTheirLines};
ghost use Rattle.primary.specs.Recalling.{AreKeyspaces, BackKeeps, DeltaLeads, ImageRecalls, Past};
ghost use Rattle.primary.specs.Resuming.{IsOpened};
ghost use Rattle.primary.specs.Standing.{Stands};

use crate::primary::Primary;
use crate::resuming::{Resumed, resume};
use kv_types::Refusal;
use model::LAYOUT;
use mv_keyspace::Keyspace;
use pmem::Pmem;
use standby_stream::Opening;
use std::alloc::Global;
use std::hash::RandomState;
use wbl_engine::{Durable, Role, Versions, WblEngine};

/// A primary whose image was opened again.
#[derive(Drop)]
pub struct Opened<E, K: Keyspace> {
    pub primary: Primary<E, K>,
    /// What a standby is told that is behind the position at which the primary was opened.
    pub opening: Opening,
    /// The position of the image's record.
    pub position: u64,
    /// The epoch of the image's record.
    pub epoch: u64,
    /// How many keys it holds.
    pub keys: u64,
}

/// Opens a primary's image again: its keyspace, its heap and what a standby is told are made of the versions that are there. Nothing waits, and no seat is
/// open.
///
/// # Errors
///
/// As at `WblEngine::reopen`, and `Memory` also after it: the image is the reopened one then.
pub fn open<P: Pmem + Drop, K: Keyspace + Drop>(
    alloc: Global,
    device: P,
    hash_builder: RandomState,
) -> Result<Opened<WblEngine<P>, K>, Refusal>
    requires settled { (word : ℕ) → Only ((P.state device).words word) (image_of (P.state device).words word) }
    ensures stands { IfOk result (λ opened. Stands ⟦<WblEngine<P> as Durable>⟧.device ⟦<WblEngine<P> as Durable>⟧.contents opened.primary) }
    ensures reopens { IfOk result (λ opened. IsReopened (P.state device).lines (image_of (P.state device).words) Role.Primary
        (⟦<WblEngine<P> as Durable>⟧.contents opened.primary.back.committer.engine)) }
    ensures opened { IfOk result (λ opened. IsOpened (⟦<WblEngine<P> as Durable>⟧.contents opened.primary.back.committer.engine)
        opened.primary.front.sequencer opened.opening opened.position opened.epoch opened.keys) }
    ensures ready { IfOk result (λ opened. (opened.primary.back.work.items ≡ []) × (opened.primary.back.committer.stage ≡ Ready)
        × (opened.primary.back.committer.aside.items ≡ []) × (opened.primary.back.committer.local ≡ opened.position)) }
    ensures sound { IfOk result (λ opened. ⟦<WblEngine<P> as Durable>⟧.is_faulted opened.primary.back.committer.engine ≡ false) }
    ensures size { IfOk result (λ opened. (⟦<WblEngine<P> as Durable>⟧.contents opened.primary.back.committer.engine).lines ≤ MAX_LINES) }
    // what the image recalls of the past, from its record's floor on, is kept, and what a standby is told leads from each position there
    ensures keeps { IfOk result (λ opened. (past : Past) → AreKeyspaces past → ImageRecalls past (image_of (P.state device).words)
        → BackKeeps ⟦<WblEngine<P> as Durable>⟧.contents past opened.primary.back opened.primary.front.sequencer) }
    ensures delta { IfOk result (λ opened. (past : Past) → AreKeyspaces past → ImageRecalls past (image_of (P.state device).words)
        → DeltaLeads opened.position past opened.opening) }
    ensures refused { IfErr result (λ refusal. (refusal ≡ Refusal.Fault) ⊎ ((refusal ≡ Refusal.Memory)
        ⊎ RefusesReopening LAYOUT (P.state device).lines (image_of (P.state device).words) Role.Primary refusal)) }
{
    match WblEngine::reopen(alloc, device, LAYOUT, Role::Primary) {
        Ok((engine, versions)) => assemble(alloc, engine, versions, hash_builder),
        Err((refusal, _)) => Err(refusal),
    }
}

/// A primary over an engine and the versions that were read of its image. Only `Memory`.
fn assemble<E: Durable + Drop, K: Keyspace + Drop>(
    alloc: Global,
    engine: E,
    versions: Versions,
    hash_builder: RandomState,
) -> Result<Opened<E, K>, Refusal>
    requires read { AreOf (E.contents engine) versions.counted.items versions.gapped.items }
    requires durable { IsDurable (E.device engine) (E.contents engine) }
    requires counted { (E.contents engine).current.position < COUNTER_LIMIT }
    requires lines { HaveTheirLines (E.contents engine) }
    requires size { (E.contents engine).lines ≤ MAX_LINES }
    ensures stands { IfOk result (λ opened. Stands E.device E.contents opened.primary) }
    ensures engine { IfOk result (λ opened. opened.primary.back.committer.engine ≡ engine) }
    ensures opened { IfOk result (λ opened. IsOpened (E.contents engine) opened.primary.front.sequencer opened.opening opened.position opened.epoch opened.keys) }
    ensures ready { IfOk result (λ opened. (opened.primary.back.work.items ≡ []) × (opened.primary.back.committer.stage ≡ Ready)
        × (opened.primary.back.committer.aside.items ≡ []) × (opened.primary.back.committer.local ≡ opened.position)) }
    ensures keeps { IfOk result (λ opened. (past : Past) (of : ℕ) (image : Image) → AreKeyspaces past → ImageRecalls past image
        → IsReopened of image Role.Primary (E.contents engine) → BackKeeps E.contents past opened.primary.back opened.primary.front.sequencer
        × DeltaLeads opened.position past opened.opening) }
    ensures cause { IfErr result (λ refusal. refusal ≡ Refusal.Memory) }
{
    let (layout, lines) = (engine.record().layout, engine.lines());
    let at = (engine.position(), engine.record().epoch);
    let floor = engine.record().floor;
    let Resumed {
        sequencer,
        opening,
        keys,
    } = resume(alloc, layout, lines, versions, at, floor, hash_builder)?;
    Ok(Opened {
        primary: Primary::new(alloc, sequencer, engine)?,
        opening,
        position: at.0,
        epoch: at.1,
        keys,
    })
}

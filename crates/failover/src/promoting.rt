//! A standby's image becomes a primary's.
ghost use Rattle.std.specs.Prelude.{◌≡◌, ◌≢◌, ◌⊎◌, ◌+◌, ◌<◌, true, false, Err, MatchResult, OnOk, OnErr, IfOk, IfErr, IsErrOf};
ghost use Rattle.kv_types.specs.declared.refusal.Refusal.TheVariants.{NotFenced, Fault, Exhausted};
ghost use Rattle.pmem.specs.Runs.{LeavesOnly};
ghost use Rattle.wbl_engine.specs.Contents.{IsDurable, Same};
ghost use Rattle.wbl_engine.specs.Lawful.{AreLawful};
ghost use Rattle.wbl_engine.specs.Promoting.{ExhaustsPromotion, promoted};
ghost use Rattle.failover.specs.Promoting.{IsBeforeOrPromoted};

use crate::fenced::Fenced;
use kv_types::Refusal;
use mv_keyspace::Keyspace;
use standby::Standby;
use wbl_engine::Durable;

/// What is left of a standby whose image was promoted: its engine, with a primary's image. It serves nobody until that image is opened as a primary's.
#[derive(Drop)]
pub struct Promoted<E: Durable> {
    engine: E,
}

impl<E: Durable> Promoted<E> {
    /// The epoch of the image's record.
    pub fn epoch(&self) -> u64
        ensures { result ≡ (E.contents self.now.engine).current.epoch }
    {
        self.engine.record().epoch
    }

    /// The device, unchanged, to be opened as a primary's.
    pub fn into_device(self) -> E::Device
        ensures { E.Device.state result ≡ E.device self.engine }
    {
        self.engine.into_device()
    }
}

/// Promotes a standby, under the fence of its epoch: its image is a primary's from then on, of the next epoch, with the same position and the same
/// versions. Its keyspace and its heap are dropped. At any moment a crash leaves the standby's image or the primary's, whole. It allocates no memory.
///
/// # Errors
///
/// `NotFenced` exactly where the fence is that of another epoch: the standby is as it was. `Exhausted` if its epoch or the number of its record would
/// reach 2^62, or if it is a newcomer: the standby is as it was. `Fault` if a fence of the device failed, in this call or an earlier one: a crash may leave either image, so
/// that it has to be opened again, as what it is then. Each gives the standby back.
pub fn promote<E: Durable, K: Keyspace + Drop>(
    standby: Standby<E, K>,
    fenced: Fenced,
) -> Result<Promoted<E>, (Refusal, Standby<E, K>)>
    // only under the fence of its epoch
    ensures unfenced { fenced ≢ (E.contents standby.engine).current.epoch → result ≡ Err (NotFenced, standby) }
    ensures fenced { OnOk result (fenced ≡ (E.contents standby.engine).current.epoch) }

    // the same contents, under a primary's record of the next epoch
    ensures moved { IfOk result (λ node. Same (promoted (E.contents standby.engine)) (E.contents node.engine)) }
    ensures epoch { IfOk result (λ node. (E.contents node.engine).current.epoch ≡ fenced + 1) }
    ensures durable { IfOk result (λ node. IsDurable (E.device node.engine) (E.contents node.engine)) }
    ensures sound { IfOk result (λ node. (E.is_faulted node.engine ≡ false)
        × ((E.device node.engine).failures ≡ (E.device standby.engine).failures)) }
    ensures lawful { AreLawful (E.contents standby.engine) → IfOk result (λ node. AreLawful (E.contents node.engine)) }

    // each refusal has its cause
    ensures causes { IfErr result (λ refused. (refused.0 ≡ NotFenced) ⊎ ((refused.0 ≡ Fault) ⊎ (refused.0 ≡ Exhausted))) }
    ensures not_fenced { IfErr result (λ refused. refused.0 ≡ NotFenced
        → (fenced ≢ (E.contents standby.engine).current.epoch) × (refused.1 ≡ standby)) }
    ensures exhausted { IfErr result (λ refused. refused.0 ≡ Exhausted
        → ExhaustsPromotion (E.contents standby.engine).current × (refused.1 ≡ standby)) }
    ensures exhausts { fenced ≡ (E.contents standby.engine).current.epoch → E.is_faulted standby.engine ≡ false
        → ExhaustsPromotion (E.contents standby.engine).current → result ≡ Err (Exhausted, standby) }
    ensures fault { IfErr result (λ refused. refused.0 ≡ Fault
        → (E.is_faulted standby.engine ≡ true) ⊎ ((E.device standby.engine).failures < (E.device refused.1.engine).failures)) }
    ensures stopped { IfErr result (λ refused. refused.0 ≡ Fault → E.is_faulted refused.1.engine ≡ true) }
    // as loads return it
    ensures stays { IfErr result (λ refused. Same (E.contents standby.engine) (E.contents refused.1.engine)) }

    // at any moment of the call
    ensures moments { fenced ≡ (E.contents standby.engine).current.epoch → E.is_faulted standby.engine ≡ false
        → MatchResult result
        (λ node. LeavesOnly (E.device standby.engine) (E.device node.engine) (IsBeforeOrPromoted (E.contents standby.engine)))
        (λ refused. LeavesOnly (E.device standby.engine) (E.device refused.1.engine) (IsBeforeOrPromoted (E.contents standby.engine))) }
{
    let mut standby = standby;
    match promote_image(&mut standby, fenced) {
        Ok(()) => Ok(Promoted {
            engine: standby.engine,
        }),
        Err(refusal) => Err((refusal, standby)),
    }
}

/// Promotes the image of a standby in its place, as `promote` does: the standby is to follow no more then, and its engine is to be opened as a primary's. Its keyspace and
/// its heap stay what they are.
///
/// # Errors
///
/// As at `promote`.
pub fn promote_image<E: Durable, K: Keyspace>(
    standby: &mut Standby<E, K>,
    fenced: Fenced,
) -> Result<(), Refusal>
    ensures unfenced { fenced ≢ (E.contents standby.old.engine).current.epoch → (result ≡ Err NotFenced) × (standby.new ≡ standby.old) }
    ensures fenced { OnOk result (fenced ≡ (E.contents standby.old.engine).current.epoch) }
    ensures moved { OnOk result (Same (promoted (E.contents standby.old.engine)) (E.contents standby.new.engine)) }
    ensures durable { OnOk result (IsDurable (E.device standby.new.engine) (E.contents standby.new.engine)) }
    ensures sound { OnOk result ((E.is_faulted standby.new.engine ≡ false)
        × ((E.device standby.new.engine).failures ≡ (E.device standby.old.engine).failures)) }
    ensures lawful { AreLawful (E.contents standby.old.engine) → OnOk result (AreLawful (E.contents standby.new.engine)) }
    ensures causes { IfErr result (λ refusal. (refusal ≡ NotFenced) ⊎ ((refusal ≡ Fault) ⊎ (refusal ≡ Exhausted))) }
    ensures not_fenced { IsErrOf result NotFenced
        → (fenced ≢ (E.contents standby.old.engine).current.epoch) × (standby.new ≡ standby.old) }
    ensures exhausted { IsErrOf result Exhausted
        → ExhaustsPromotion (E.contents standby.old.engine).current × (standby.new ≡ standby.old) }
    ensures exhausts { fenced ≡ (E.contents standby.old.engine).current.epoch → E.is_faulted standby.old.engine ≡ false
        → ExhaustsPromotion (E.contents standby.old.engine).current → result ≡ Err Exhausted }
    ensures fault { IsErrOf result Fault
        → (E.is_faulted standby.old.engine ≡ true) ⊎ ((E.device standby.old.engine).failures < (E.device standby.new.engine).failures) }
    ensures stopped { IsErrOf result Fault → E.is_faulted standby.new.engine ≡ true }
    ensures stays { OnErr result (Same (E.contents standby.old.engine) (E.contents standby.new.engine)) }
    ensures asked_moment { (E.device standby.new.engine).kept ≡ (E.device standby.old.engine).kept }
    // at any moment of the call
    ensures moments { fenced ≡ (E.contents standby.old.engine).current.epoch → E.is_faulted standby.old.engine ≡ false
        → LeavesOnly (E.device standby.old.engine) (E.device standby.new.engine) (IsBeforeOrPromoted (E.contents standby.old.engine)) }
{
    if fenced.epoch() != standby.epoch() {
        return Err(Refusal::NotFenced);
    }
    standby.engine.promote()
}

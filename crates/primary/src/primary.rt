//! A primary: what serves, and what commits.
ghost use Rattle.std.specs.Prelude.{◌≡◌, ℕ, [], List, true, false, IfOk, IfErr, OnErr};
ghost use Rattle.model.specs.declared.work.FreeList.{FreeList};
ghost use Rattle.model.specs.declared.work.Work.{Work};
ghost use Rattle.model.specs.Group.{Contents, IsConsistent};
ghost use Rattle.group_commit.specs.declared.stage.Stage.TheVariants.{Ready};
ghost use Rattle.wbl_engine.specs.Contents.{IsDurable};
ghost use Rattle.primary.specs.Closing.{ClosesOne, MayClose};
ghost use Rattle.primary.specs.Leading.{AreLaid, Leads};
ghost use Rattle.primary.specs.Recalling.{BackKeeps, KeepsPast, Past};
ghost use Rattle.primary.specs.Resuming.{IsOver};
ghost use Rattle.primary.specs.Standing.{BackStands, IsTold, Stands, notices_of};

use crate::back::Back;
use crate::closing::close_next;
use crate::front::Front;
use group_commit::{Committer, Done};
use kv_types::Refusal;
use model::Work;
use mv_keyspace::Keyspace;
use pipes::LocalPipe;
use redis_core::Sequencer;
use std::alloc::Global;
use wbl_engine::Durable;

/// A primary in two parts, of which each may be in a thread of its own for a while. Each step keeps what the next one asks for (`Stands`): so what the
/// queue gives is what a commit requires, and what was freed comes back to the heap as soon as it is durable and the front is told.
#[derive(Drop)]
pub struct Primary<E, K: Keyspace> {
    pub front: Front<K>,
    pub back: Back<E>,
}

impl<E: Durable + Drop, K: Keyspace + Drop> Primary<E, K> {
    /// A primary over an engine and a sequencer that starts over what the engine contains. Nothing waits.
    ///
    /// # Errors
    ///
    /// Only `Memory`.
    pub fn new(alloc: Global, sequencer: Sequencer<K>, engine: E) -> Result<Primary<E, K>, Refusal>
        ensures stands { IfOk result (λ primary. IsOver (E.contents engine) sequencer → IsConsistent (E.contents engine) → AreLaid (E.contents engine)
            → IsDurable (E.device engine) (E.contents engine) → Stands E.device E.contents primary) }
        ensures sequencer { IfOk result (λ primary. primary.front.sequencer ≡ sequencer) }
        ensures engine { IfOk result (λ primary. primary.back.committer.engine ≡ engine) }
        ensures ready { IfOk result (λ primary. (primary.back.work.items ≡ []) × (primary.back.committer.stage ≡ Ready) × (primary.back.committer.aside.items ≡ [])
            × (primary.back.committer.local ≡ (E.contents engine).current.position)) }
        ensures cause { IfErr result (λ refusal. refusal ≡ Refusal.Memory) }
    {
        let work = LocalPipe::new(alloc)?;
        Ok(Primary::with_queue(alloc, sequencer, work, engine))
    }
}

impl<E: Durable, K: Keyspace> Primary<E, K> {
    /// A primary over an engine, a sequencer and a queue. It takes no memory. With an empty queue it is as that of `new`.
    pub fn with_queue(
        alloc: Global,
        sequencer: Sequencer<K>,
        work: LocalPipe<Work>,
        engine: E,
    ) -> Primary<E, K>
        ensures stands { IsOver (E.contents engine) sequencer → IsConsistent (E.contents engine) → AreLaid (E.contents engine)
            → IsDurable (E.device engine) (E.contents engine) → work.items ≡ [] → Stands E.device E.contents result }
        ensures sequencer { result.front.sequencer ≡ sequencer }
        ensures work { result.back.work ≡ work }
        ensures engine { result.back.committer.engine ≡ engine }
        ensures ready { (result.back.committer.stage ≡ Ready) × (result.back.committer.aside.items ≡ [])
            × (result.back.committer.local ≡ (E.contents engine).current.position) }
    {
        Primary {
            front: Front { sequencer },
            back: Back {
                work,
                committer: Committer::new(alloc, engine),
            },
        }
    }
}

/// Takes all changes that wait at the front as one group or, where none waits, all versions that have ended and are in no free list as one list, if the
/// back's queue has room for it. Answers whether it did.
///
/// # Errors
///
/// Only `Memory`, and then nothing changed.
pub fn close<E: Durable, K: Keyspace>(
    alloc: Global,
    front: &mut Front<K>,
    back: &mut Back<E>,
) -> Result<bool, Refusal>
    ensures closed { IfOk result (λ did. did ≡ true → MayClose front.old.sequencer back.old.work
        × ClosesOne front.old.sequencer back.old.work front.new.sequencer back.new.work) }
    ensures none { IfOk result (λ did. did ≡ false → (¬ MayClose front.old.sequencer back.old.work) × (front.new.sequencer ≡ front.old.sequencer)
        × (back.new.work ≡ back.old.work)) }
    ensures cause { IfErr result (λ refusal. refusal ≡ Refusal.Memory) }
    ensures refused { OnErr result (MayClose front.old.sequencer back.old.work × (front.new.sequencer ≡ front.old.sequencer)
        × (back.new.work.items ≡ back.old.work.items)) }
    ensures stands { BackStands E.device E.contents back.old front.old.sequencer [] → BackStands E.device E.contents back.new front.new.sequencer [] }
    ensures committer { back.new.committer ≡ back.old.committer }
    // nothing is called
    ensures at { front.new.sequencer.position ≡ front.old.sequencer.position }
    ensures keeps { (past : Past) → BackStands E.device E.contents back.old front.old.sequencer [] → BackKeeps E.contents past back.old front.old.sequencer
        → BackKeeps E.contents past back.new front.new.sequencer }
{
    close_next(alloc, &mut front.sequencer, &mut back.work)
}

/// Gives the front's heap what a step of the back freed.
pub fn take_back<K: Keyspace>(front: &mut Front<K>, done: &Done)
    requires expected { (contents : Contents) × (items : List Work) × (aside : List FreeList) × Leads contents items aside front.old.sequencer (notices_of done.now) }
    ensures taken { IsTold done.now front.old.sequencer front.new.sequencer }
    ensures leads { (contents : Contents) (items : List Work) (aside : List FreeList) → Leads contents items aside front.old.sequencer (notices_of done.now)
        → Leads contents items aside front.new.sequencer [] }
    ensures keeps { (low : ℕ) (past : Past) (contents : Contents) (items : List Work) (aside : List FreeList) → KeepsPast low past contents items aside front.old.sequencer
        → KeepsPast low past contents items aside front.new.sequencer }
{
    match done {
        Done::Freed(freed) => front.take_back(freed),
        Done::Cleared(freed) => front.take_back(freed),
        Done::Committed(_) | Done::Raised | Done::Handed | Done::Idle => {}
    }
}

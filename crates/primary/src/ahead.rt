//! Groups that are closed while the back is in another thread. They wait apart, and go behind its queue once it is here.
ghost use Rattle.std.specs.Prelude.{◌≡◌, ◌≤◌, ◌+◌, ◌++◌, ℕ, List, [], length, true, false, IfOk, IfErr, OnErr};
ghost use Rattle.pipes.specs.declared.limits.TheConstants.{PIPE_ITEMS};
ghost use Rattle.primary.specs.Ahead.{GoesAhead, MayCloseGroup};
ghost use Rattle.primary.specs.Closing.{ClosesGroup};

use crate::back::Back;
use crate::front::Front;
use kv_types::Refusal;
use model::Work;
use mv_keyspace::Keyspace;
use pipes::{Inlet, LocalPipe, Outlet, PIPE_ITEMS};
use redis_core::Sequencer;
use std::alloc::Global;
use wbl_engine::Durable;

/// Takes all changes that wait at the front as one group, which goes last in `ahead`, if some wait and there is room for it. Whatever the front was ahead of by
/// what is in `ahead`, it still is. Answers whether it did.
///
/// # Errors
///
/// Only `Memory`, and then nothing changed.
pub fn close_ahead<K: Keyspace>(
    alloc: Global,
    front: &mut Front<K>,
    ahead: &mut LocalPipe<Work>,
) -> Result<bool, Refusal>
    ensures closed { IfOk result (λ did. did ≡ true → MayCloseGroup front.old.sequencer ahead.old
        × ClosesGroup front.old.sequencer ahead.old front.new.sequencer ahead.new) }
    ensures none { IfOk result (λ did. did ≡ false → (¬ MayCloseGroup front.old.sequencer ahead.old) × (front.new.sequencer ≡ front.old.sequencer)
        × (ahead.new ≡ ahead.old)) }
    ensures cause { IfErr result (λ refusal. refusal ≡ Refusal.Memory) }
    ensures refused { OnErr result (MayCloseGroup front.old.sequencer ahead.old × (front.new.sequencer ≡ front.old.sequencer)
        × (ahead.new.items ≡ ahead.old.items)) }
    // nothing is called
    ensures at { front.new.sequencer.position ≡ front.old.sequencer.position }
    ensures goes { GoesAhead front.old.sequencer ahead.old.items front.new.sequencer ahead.new.items }
{
    close_open(alloc, &mut front.sequencer, ahead)
}

/// Puts what is in `ahead` last in the back's queue, which has room for it.
pub fn take_ahead<E: Durable>(ahead: &mut LocalPipe<Work>, back: &mut Back<E>)
    requires fits { length back.old.work.items + length ahead.old.items ≤ PIPE_ITEMS }
    ensures last { back.new.work.items ≡ back.old.work.items ++ ahead.old.items }
    ensures none { ahead.new.items ≡ [] }
    ensures committer { back.new.committer ≡ back.old.committer }
{
    while let Some(item) = ahead.take() {
        match back.work.offer(item) {
            Ok(()) => {}
            Err(_) => unreachable!(),
        }
    }
}

/// Takes all changes that wait at the sequencer as one group, if some wait and there is room for it. Answers whether it did.
///
/// `Memory` where a growth was refused, and then nothing changed.
fn close_open<K: Keyspace>(
    alloc: Global,
    sequencer: &mut Sequencer<K>,
    work: &mut LocalPipe<Work>,
) -> Result<bool, Refusal>
    ensures closed { IfOk result (λ did. did ≡ true → MayCloseGroup sequencer.old work.old × ClosesGroup sequencer.old work.old sequencer.new work.new) }
    ensures none { IfOk result (λ did. did ≡ false → (¬ MayCloseGroup sequencer.old work.old) × (sequencer.new ≡ sequencer.old) × (work.new ≡ work.old)) }
    ensures cause { IfErr result (λ refusal. refusal ≡ Refusal.Memory) }
    ensures refused { OnErr result (MayCloseGroup sequencer.old work.old × (sequencer.new ≡ sequencer.old) × (work.new.items ≡ work.old.items)) }
{
    if work.len() == PIPE_ITEMS {
        return Ok(false);
    }
    if sequencer.has_open() {
        sequencer.close_group(alloc, work)?;
        return Ok(true);
    }
    Ok(false)
}

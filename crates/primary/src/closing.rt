//! Groups and free lists are closed: what waits at the sequencer becomes one item, which waits for the committer.
ghost use Rattle.std.specs.Prelude.{◌≡◌, ◌↔◌, true, false, IfOk, IfErr, OnErr, IsTrue};
ghost use Rattle.primary.specs.Closing.{ClosesOne, MayClose};

use kv_types::Refusal;
use model::Work;
use mv_keyspace::Keyspace;
use pipes::{LocalPipe, PIPE_ITEMS};
use redis_core::Sequencer;
use std::alloc::Global;

/// Takes all changes that wait at the sequencer as one group or, where none waits, all versions that have ended and are in no free list as one list,
/// if there is room for it. Answers whether it did.
///
/// `Memory` where a growth was refused, and then nothing changed.
pub(crate) fn close_next<K: Keyspace>(
    alloc: Global,
    sequencer: &mut Sequencer<K>,
    work: &mut LocalPipe<Work>,
) -> Result<bool, Refusal>
    ensures closed { IfOk result (λ did. did ≡ true → MayClose sequencer.old work.old × ClosesOne sequencer.old work.old sequencer.new work.new) }
    ensures none { IfOk result (λ did. did ≡ false → (¬ MayClose sequencer.old work.old) × (sequencer.new ≡ sequencer.old) × (work.new ≡ work.old)) }
    ensures cause { IfErr result (λ refusal. refusal ≡ Refusal.Memory) }
    ensures refused { OnErr result (MayClose sequencer.old work.old × (sequencer.new ≡ sequencer.old) × (work.new.items ≡ work.old.items)) }
{
    if work.len() == PIPE_ITEMS {
        return Ok(false);
    }
    if sequencer.has_open() {
        sequencer.close_group(alloc, work)?;
        return Ok(true);
    }
    if sequencer.has_ended() {
        sequencer.close_list(alloc, work)?;
        return Ok(true);
    }
    Ok(false)
}

//! The record without a gap: the stamps of each are erased, the oldest first.
ghost use Rattle.std.specs.Prelude.{◌≡◌, ◌⊎◌, ℕ, ◌+◌, ◌<◌, ◌≤◌, ◌||◌, ◌↔◌, [], length, IsTrue, OnOk, IfOk, IfErr, IsErrOf};
ghost use Rattle.model.specs.declared.image.TheConstants.{COUNTER_LIMIT};
ghost use Rattle.wbl_engine.specs.Freeing.{is_listed};
ghost use Rattle.wbl_migrate.specs.Moving.{IsReady, IsStep, KeepsAllVersions};

use kv_types::{EntryNo, Refusal};
use model::Record;
use std::alloc::Global;
use wbl_engine::Durable;

/// Clears the gaps of the record, the oldest first, until it has none. Returns the entries that were begun in one of them, which are free then. No version
/// changes.
///
/// # Errors
///
/// `Exhausted` where a gap is left and the number of the next record would reach 2^62; `Memory` if an allocation was refused: gaps may be left, and the
/// engine may go on. `Fault` if a fence failed.
pub fn clear_gaps<E: Durable>(engine: &mut E, alloc: Global) -> Result<Vec<EntryNo>, Refusal>
    requires { IsReady E.device E.contents E.is_faulted engine.old }
    ensures gapless { OnOk result ((E.contents engine.new).current.gaps.items ≡ []) }
    ensures free { IfOk result (λ cleared. (i : ℕ) → (E.contents engine.new).is_free i
        ≡ ((E.contents engine.old).is_free i || is_listed i cleared.items)) }
    ensures causes { IfErr result (λ refusal. (refusal ≡ Refusal.Fault) ⊎ ((refusal ≡ Refusal.Exhausted) ⊎ (refusal ≡ Refusal.Memory))) }
    ensures exhausted { IsErrOf result Refusal.Exhausted → (0 < length (E.contents engine.new).current.gaps.items)
        × (COUNTER_LIMIT ≤ (E.contents engine.new).current.number + 1) }
    ensures step { IsStep E.device E.contents E.is_faulted KeepsAllVersions engine.old result engine.new }
{
    let mut cleared = Vec::new(alloc);
    while has_gap(engine.record()) {
        let freed = engine.clear_gap(alloc)?;
        cleared.extend_from_slice(&freed.entries)?;
    }
    Ok(cleared)
}

/// Whether the record has a gap.
fn has_gap(current: &Record) -> bool
    ensures { IsTrue result ↔ (0 < length (current.now).gaps.items) }
{
    !current.gaps.is_empty()
}

//! The entries of versions that have ended, listed until they leave to be freed.
ghost use Rattle.std.specs.Prelude.{◌≡◌, ◌++◌, List, IfErr, OnOk, OnErr};
ghost use Rattle.kv_types.specs.declared.place.EntryNo.{EntryNo};
ghost use Rattle.redis_core.specs.Sequencing as listing;
ghost use Rattle.redis_core.specs.Sequencing.{ended_by_parts};

use kv_types::{EntryNo, Refusal};
use model::{FreeList, Part};

/// Lists what the parts ended, behind what is listed.
///
/// # Errors
///
/// Only `Memory`. The list has what it had.
pub(crate) fn list_ended(list: &mut FreeList, parts: &[Part]) -> Result<(), Refusal>
    ensures entries { OnOk result (list.new.entries.items ≡ list.old.entries.items ++ ended_by_parts parts.now) }
    ensures position { OnOk result (list.new.position ≡ listing.newest_end list.old.position parts.now) }
    ensures cause { IfErr result (λ refusal. refusal ≡ Refusal.Memory) }
    ensures err { OnErr result (list.new.entries.items ≡ list.old.entries.items) }
    ensures err_position { OnErr result (list.new.position ≡ list.old.position) }
{
    let before = list.entries.len();
    match append_ended(&mut list.entries, parts) {
        Ok(()) => {
            list.position = newest_end(list.position, parts);
            Ok(())
        }
        Err(refusal) => {
            list.entries.truncate(before);
            Err(refusal)
        }
    }
}

/// Appends what the parts ended, in order.
///
/// # Errors
///
/// Only `Memory`. Some of it may stand behind what was there.
fn append_ended(entries: &mut Vec<EntryNo>, parts: &[Part]) -> Result<(), Refusal>
    ensures ok { OnOk result (entries.new.items ≡ entries.old.items ++ ended_by_parts parts.now) }
    ensures cause { IfErr result (λ refusal. refusal ≡ Refusal.Memory) }
    ensures kept { (more : List EntryNo) × (entries.new.items ≡ entries.old.items ++ more) }
{
    for part in parts {
        entries.extend_from_slice(&part.ended)?;
    }
    Ok(())
}

/// The position of the newest end after these parts, where it was `newest` before.
fn newest_end(newest: u64, parts: &[Part]) -> u64
    ensures { result ≡ listing.newest_end newest parts.now }
{
    let mut newest = newest;
    for part in parts {
        if !part.ended.is_empty() {
            newest = part.position;
        }
    }
    newest
}

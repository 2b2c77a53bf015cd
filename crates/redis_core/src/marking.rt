//! The keys that a request modified, marked in the sessions that watch them.
ghost use Rattle.std.specs.Prelude.{◌≡◌, ℕ, List, Option, map, option_to_list, IfOk, IfErr};
ghost use Rattle.std.specs.List.{list_any};
ghost use Rattle.std.specs.Option.{option_copied, option_map};
ghost use Rattle.cmd_core.specs.Contents.{same_bytes};
ghost use Rattle.kv_types.specs.declared.change.Change.{Change};
ghost use Rattle.kv_types.specs.Keyspace.{Keyspace};
ghost use Rattle.model.specs.Group.{change_of};
ghost use Rattle.multi_watch.specs.Modified.{names, is_clear};
ghost use Rattle.multi_watch.specs.Session.{modified_where};
ghost use Rattle.multi_watch.specs.Sessions.{slot};
ghost use Rattle.redis_core.specs.Marking.{AreCleared, Marks};

use crate::seats::Seats;
use cmd_core::Lookup;
use kv_types::{Change, Key, Refusal};
use model::PlacedChange;
use std::alloc::Global;

/// The watched keys that these changes modify by clearing the keyspace, before they are made; none where they clear nothing.
///
/// # Errors
///
/// Only `Memory`.
pub(crate) fn cleared_keys<L: Lookup>(
    alloc: Global,
    lookup: &L,
    seats: &Seats,
    changes: &[Change],
) -> Result<Vec<Key>, Refusal>
    ensures held { IfOk result (λ keys. AreCleared (L.keyspace lookup.now) changes.now seats.now keys.items) }
    ensures cause { IfErr result (λ refusal. refusal ≡ Refusal.Memory) }
{
    if is_clearing(changes) {
        seats.watched_in(alloc, lookup)
    } else {
        Ok(Vec::new(alloc))
    }
}

/// Whether one of these changes clears the keyspace.
fn is_clearing(changes: &[Change]) -> bool
    ensures { result ≡ list_any is_clear changes.now }
{
    changes.iter().any(|change| matches!(change, Change::Clear))
}

/// Marks the keys of changes that were made, and the keys that they cleared away. It takes no memory.
pub(crate) fn mark(seats: &mut Seats, changes: &[PlacedChange], cleared: &[Key])
    ensures { (s : Keyspace) (made : List Change) → map change_of changes.now ≡ made → AreCleared s made seats.old cleared.now → Marks s made seats.old seats.new }
{
    mark_changes(seats, changes);
    mark_keys(seats, cleared);
}

fn mark_changes(seats: &mut Seats, changes: &[PlacedChange])
    ensures { (seat : ℕ) → slot seats.new seat ≡ option_map (modified_where (λ own. list_any (names own) (map change_of changes.now))) (slot seats.old seat) }
{
    for change in changes {
        if let Some(key) = changed_key(change) {
            seats.modified(key);
        }
    }
}

fn mark_keys(seats: &mut Seats, keys: &[Key])
    ensures { (seat : ℕ) → slot seats.new seat ≡ option_map (modified_where (λ own. list_any (λ key. same_bytes own key) keys.now)) (slot seats.old seat) }
{
    for key in keys {
        seats.modified(key);
    }
}

/// The key of a change; none where it clears the keyspace.
fn changed_key(change: &PlacedChange) -> Option<&Key>
    ensures { (own : List ℕ) → list_any (λ key. same_bytes own key) (option_to_list (option_copied result)) ≡ names own (change_of change.now) }
{
    match change {
        PlacedChange::Put(put) => Some(put.id.key()),
        PlacedChange::Drop(id) => Some(id.key()),
        PlacedChange::DropKey(key) => Some(key),
        PlacedChange::Clear => None,
    }
}

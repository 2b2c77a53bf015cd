//! How many keys there are, from one change to the next.
ghost use Rattle.std.specs.Prelude.{◌≡◌, ◌<◌, ◌^◌, length, IsTrue};
ghost use Rattle.std.specs.Option.{option_copied};
ghost use Rattle.std.specs.FinMap.Entries.{is_sorted};
ghost use Rattle.kv_types.specs.Keyspace.{record_cmp};
ghost use Rattle.cmd_core.specs.Contents.{keys_of};
ghost use Rattle.model.specs.Group.{change_of};
ghost use Rattle.mv_keyspace.specs.Keys.{changed_key, keys_beside};
ghost use Rattle.mv_keyspace.specs.Row.{records_of};

use crate::row::Row;
use cmd_core::{count_keys_in, has_in_order};
use kv_types::Key;
use model::PlacedChange;

/// How many keys there are that a change does not touch, where there are `keys` in all.
#[tactic(auto, using(crate::proofs::KeyCountLemmas::keys_counted, crate::proofs::KeyCountLemmas::keys_few_rows))]
pub(crate) fn count_others(rows: &[Row], keys: u64, change: &PlacedChange) -> u64
    requires order { IsTrue (is_sorted record_cmp (records_of rows.now)) }
    requires counted { keys ≡ length (keys_of (records_of rows.now)) }
    ensures value { result ≡ length (keys_beside (change_of change.now) (records_of rows.now)) }
    ensures bound { result < 2 ^ 63 }
{
    match key_changed(change) {
        Some(key) => if has_in_order(rows, key.as_slice()) {
            keys - 1
        } else {
            keys
        },
        None => 0,
    }
}

/// How many keys there are after a change, where it left `others` beside that which it touched.
#[tactic(auto, using(crate::proofs::KeyCountLemmas::keys_counted))]
pub(crate) fn count_with(rows: &[Row], others: u64, change: &PlacedChange) -> u64
    requires order { IsTrue (is_sorted record_cmp (records_of rows.now)) }
    requires others { others ≡ length (keys_beside (change_of change.now) (records_of rows.now)) }
    requires bound { others < 2 ^ 63 }
    ensures { result ≡ length (keys_of (records_of rows.now)) }
{
    match key_changed(change) {
        Some(key) => if has_in_order(rows, key.as_slice()) {
            others + 1
        } else {
            others
        },
        None => count_keys_in(rows),
    }
}

/// The key that a change touches, or `None` where it touches all.
pub(crate) fn key_changed(change: &PlacedChange) -> Option<&Key>
    ensures { option_copied result ≡ changed_key (change_of change.now) }
{
    match change {
        PlacedChange::Put(put) => Some(put.id.key()),
        PlacedChange::Drop(id) => Some(id.key()),
        PlacedChange::DropKey(key) => Some(key),
        PlacedChange::Clear => None,
    }
}

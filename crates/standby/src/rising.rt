//! The records of a copy, which rise from put to put over all its parts.
ghost use Rattle.std.specs.Prelude.{◌≡◌, ◌↔◌, IsTrue, Option, None, Some};
ghost use Rattle.kv_types.specs.declared.record_id.RecordId.{RecordId as Id};
ghost use Rattle.model.specs.ReadImage.{is_clash as the_clash};
ghost use Rattle.wbl_engine.specs.Copying.{Follows};
ghost use Rattle.standby.specs.Copies.{Rise};

use kv_types::{RecordId, Value};

/// Whether the two are the same record, or a string and a field of one key.
fn is_clash(other: &RecordId, id: &RecordId) -> bool
    ensures { result ≡ the_clash other.now id.now }
{
    other.key() == id.key() && (other == id || other.field().is_none() || id.field().is_none())
}

/// Whether a record may come behind this one in a copy: it comes after it, and no keyspace lacks one of the two for the other.
fn follows(last: &RecordId, id: &RecordId) -> bool
    ensures { IsTrue result ↔ Follows (Some last.now) id.now }
{
    *last < *id && !is_clash(last, id)
}

/// Whether the records of the puts rise: each may come behind the one before it, and the first one behind `last`.
pub fn are_rising(last: &Option<RecordId>, puts: &[(RecordId, Value)]) -> bool
    ensures { IsTrue result ↔ Rise last.now puts.now }
{
    match puts.split_first() {
        None => true,
        Some((first, others)) => may_begin(last, &first.0) && are_rising_behind(&first.0, others),
    }
}

/// Whether a record may come behind this one, where there is one.
fn may_begin(last: &Option<RecordId>, id: &RecordId) -> bool
    ensures { IsTrue result ↔ Follows last.now id.now }
{
    match last {
        None => true,
        Some(last) => follows(last, id),
    }
}

/// Whether the records of the puts rise behind this one.
fn are_rising_behind(last: &RecordId, puts: &[(RecordId, Value)]) -> bool
    ensures { IsTrue result ↔ Rise (Some last.now) puts.now }
{
    let mut last = last;
    for put in puts {
        if !follows(last, &put.0) {
            return false;
        }
        last = &put.0;
    }
    true
}

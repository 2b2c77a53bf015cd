//! What is kept of a copy that is given in parts.
ghost use Rattle.std.specs.Prelude.{◌≡◌, ◌++◌, ◌∷◌, [], None, Some, Contains, ℕ, List, IfOk, IfErr, MatchOption};
ghost use Rattle.kv_types.specs.declared.record_id.RecordId.{RecordId};
ghost use Rattle.mv_keyspace.specs.declared.row.Row.{Row};
ghost use Rattle.mv_keyspace.specs.Row.{table_of};
ghost use Rattle.mv_keyspace.specs.Table.{records};
ghost use Rattle.mv_keyspace.specs.Versions.{shown};
ghost use Rattle.redis_core.specs.Copying.{IsNextPart, copy_of, one_more, pins_without, rest_of};

use kv_types::{RecordId, Refusal, Value};
use mv_keyspace::{Keyspace, Pin, Row};
use std::alloc::Global;

/// A copy that was begun: what is pinned for it, and how far it was given.
#[derive(Drop)]
pub(crate) struct Copying {
    pub(crate) pin: Pin,
    /// The position of the list that it is of.
    pub(crate) position: u64,
    /// The last record of the part that was given last; none before the first.
    pub(crate) after: Option<RecordId>,
    /// How many parts were given, or 2^64 - 1 if there are more.
    pub(crate) parts: u64,
}

impl Copying {
    /// A part was given that ends with this record.
    pub(crate) fn pass(&mut self, last: RecordId)
        ensures after { self.new.after ≡ Some last }
        ensures parts { self.new.parts ≡ one_more self.old.parts }
        ensures pin { self.new.pin ≡ self.old.pin }
        ensures position { self.new.position ≡ self.old.position }
    {
        self.after = Some(last);
        self.parts = self.parts.saturating_add(1);
    }

    /// Nothing was given yet.
    pub(crate) fn restart(&mut self)
        ensures after { self.new.after ≡ None }
        ensures parts { self.new.parts ≡ 0 }
        ensures pin { self.new.pin ≡ self.old.pin }
        ensures position { self.new.position ≡ self.old.position }
    {
        self.after = None;
        self.parts = 0;
    }
}

/// The next part of a copy, with the record that it ends with; none where all was given. It is as many records as have together at most so many bytes as
/// puts of a frame, and one at least.
///
/// # Errors
///
/// Only `Memory`.
pub(crate) fn next_part<K: Keyspace>(
    alloc: Global,
    keyspace: &K,
    copying: &Copying,
    bytes: u64,
) -> Result<Option<(Vec<(RecordId, Value)>, RecordId)>, Refusal>
    ensures ok { IfOk result (λ next. MatchOption next (rest_of (copy_of (K.table keyspace.now) (K.past keyspace.now) copying.now) ≡ [])
        (λ part. IsNextPart bytes (copy_of (K.table keyspace.now) (K.past keyspace.now) copying.now) part.0.items part.1)) }
    ensures cause { IfErr result (λ refusal. refusal ≡ Refusal.Memory) }
{
    let rows = keyspace.view_page(alloc, &copying.pin, copying.after.as_ref(), bytes)?;
    let last = match last_id(&rows) {
        Some(id) => id.clone()?,
        None => return Ok(None),
    };
    Ok(Some((puts_of(alloc, rows)?, last)))
}

/// The record of the last row.
fn last_id(rows: &[Row]) -> Option<&RecordId>
    ensures { MatchOption result (rows.now ≡ []) (λ id. (front : List Row) × (row : Row) × (rows.now ≡ front ++ row ∷ []) × (id.now ≡ row.id)) }
{
    match rows {
        [] => None,
        [.., last] => Some(&last.id),
    }
}

/// The rows as puts of a frame. Only `Memory`.
fn puts_of(alloc: Global, rows: Vec<Row>) -> Result<Vec<(RecordId, Value)>, Refusal>
    ensures ok { IfOk result (λ puts. puts.items ≡ records (table_of rows.items)) }
    ensures cause { IfErr result (λ refusal. refusal ≡ Refusal.Memory) }
{
    let mut puts = Vec::with_capacity(alloc, rows.len())?;
    for row in rows {
        puts.push((row.id, row.value))?;
    }
    Ok(puts)
}

/// Gives back what is pinned for a copy, if there is one. What ended since and nothing else shows is dropped.
pub(crate) fn give_back<K: Keyspace>(keyspace: &mut K, copying: Option<Copying>)
    ensures table { K.table keyspace.new ≡ K.table keyspace.old }
    ensures last { K.last keyspace.new ≡ K.last keyspace.old }
    ensures pins { K.pins keyspace.new ≡ pins_without copying (K.pins keyspace.old) }
    ensures shown { (pin : ℕ) → Contains (K.pins keyspace.new) pin → shown pin (K.table keyspace.new) (K.past keyspace.new) ≡ shown pin (K.table keyspace.old) (K.past keyspace.old) }
{
    if let Some(copying) = copying {
        keyspace.unpin(copying.pin);
        keyspace.reclaim(u64::MAX);
    }
}

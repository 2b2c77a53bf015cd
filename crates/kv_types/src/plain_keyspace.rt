//! The plain, slow keyspace: a list of records, with which every faster one is compared.
ghost use Rattle.std.specs.Prelude.{◌≡◌, ℕ, List, ◌+◌, ◌<◌, ◌≤◌, ◌==◌, [], length, insert, slice_index_or, slice_set, OnOk, OnErr, IfOk, IfErr, vec_len, vec_capacity};
ghost use Rattle.std.specs.Option.{option_copied};
ghost use Rattle.std.specs.Ordering.{eq_by_cmp};
ghost use Rattle.kv_types.specs.Keyspace.{IsKeyspace, value_at, record_cmp, with_record, without_record, without_key, play, play_all};

use crate::bounded::{Key, Value};
use crate::change::Change;
use crate::record_id::RecordId;
use std::alloc::{AllocError, Global};
use std::cmp::Ordering;
use std::marker::Model;

/// A keyspace as the list of its records in order. A clause sees the list.
#[derive(Debug, Drop)]
pub struct PlainKeyspace {
    records: Vec<(RecordId, Value)>,
}

impl Model for PlainKeyspace {
    ghost use Rattle.kv_types.specs.Keyspace.{Keyspace, IsKeyspace};

    ghost Value = { Keyspace };

    ghost view = { λ k. k.records.items };

    ghost invariant = { λ k. IsKeyspace k.records.items };
}

impl PlainKeyspace {
    /// An empty keyspace. It takes no memory.
    pub fn new(alloc: Global) -> PlainKeyspace
        ensures { result ≡ [] }
    {
        PlainKeyspace {
            records: Vec::new(alloc),
        }
    }

    /// All records, in order.
    pub fn records(&self) -> &[(RecordId, Value)]
        ensures value { result.now ≡ self.now }
        ensures lawful { IsKeyspace result.now }
    {
        self.records.as_slice()
    }

    /// How many records there are.
    pub fn len(&self) -> usize
        ensures { result ≡ length self.now }
    {
        self.records.len()
    }

    pub fn is_empty(&self) -> bool
        ensures { result ≡ (length self.now == 0) }
    {
        self.records.is_empty()
    }

    /// The value of a record.
    pub fn get(&self, id: &RecordId) -> Option<&Value>
        ensures { option_copied result ≡ value_at self.now id.now }
    {
        value_in(self.records.as_slice(), id)
    }

    /// Plays one change. Only a put takes memory; if it is refused, the keyspace is as it was.
    pub fn play(&mut self, change: Change) -> Result<(), AllocError>
        ensures ok { OnOk result (self.new ≡ play self.old change) }
        ensures err { OnErr result (self.new ≡ self.old) }
    {
        play_on(&mut self.records, change)
    }

    /// Plays the changes in order: all of them or, where memory is refused, none.
    pub fn play_all(&mut self, changes: Vec<Change>) -> Result<(), AllocError>
        ensures ok { OnOk result (self.new ≡ play_all self.old changes.items) }
        ensures err { OnErr result (self.new ≡ self.old) }
    {
        self.records.reserve(changes.len())?;
        play_each(&mut self.records, changes);
        Ok(())
    }
}

/// The value of the record in the list.
fn value_in<'a>(records: &'a [(RecordId, Value)], id: &RecordId) -> Option<&'a Value>
    ensures { option_copied result ≡ value_at records.now id.now }
{
    for record in records {
        if *id == record.0 {
            return Some(&record.1);
        }
    }
    None
}

/// Plays the changes in order, in the room that there is.
fn play_each(records: &mut Vec<(RecordId, Value)>, changes: Vec<Change>)
    requires { vec_len records.old + vec_len changes ≤ vec_capacity records.old }
    ensures { records.new.items ≡ play_all records.old.items changes.items }
{
    for change in changes {
        match play_on(records, change) {
            Ok(()) => {}
            Err(_) => unreachable!(),
        }
    }
}

fn play_on(records: &mut Vec<(RecordId, Value)>, change: Change) -> Result<(), AllocError>
    ensures ok { OnOk result (records.new.items ≡ play records.old.items change) }
    ensures err { OnErr result (records.new.items ≡ records.old.items) }
    ensures len { vec_len records.new ≤ vec_len records.old + 1 }
    ensures capacity { vec_capacity records.old ≤ vec_capacity records.new }
    ensures full { OnErr result (vec_capacity records.old ≤ vec_len records.old) }
{
    match change {
        Change::Put(id, value) => put(records, id, value)?,
        Change::Drop(id) => drop_record(records, &id),
        Change::DropKey(key) => drop_key(records, &key),
        Change::Clear => records.clear(),
    }
    Ok(())
}

/// Puts a record, replacing what its key held if that was of the other kind.
fn put(records: &mut Vec<(RecordId, Value)>, id: RecordId, value: Value) -> Result<(), AllocError>
    ensures ok { OnOk result (records.new.items ≡ play records.old.items (Change.Put id value)) }
    ensures err { OnErr result (records.new.items ≡ records.old.items) }
    ensures len { vec_len records.new ≤ vec_len records.old + 1 }
    ensures capacity { vec_capacity records.old ≤ vec_capacity records.new }
    ensures full { OnErr result (vec_capacity records.old ≤ vec_len records.old) }
{
    // Room first: what follows drops records, and must not fail after that.
    records.reserve(1)?;
    match &id {
        RecordId::Str(key) => drop_key(records, key),
        RecordId::Field(key, _) => drop_string(records, key),
    }
    put_record(records, id, value)
}

/// Puts a record and leaves the others unchanged.
fn put_record(
    records: &mut Vec<(RecordId, Value)>,
    id: RecordId,
    value: Value,
) -> Result<(), AllocError>
    ensures ok { OnOk result (records.new.items ≡ with_record id value records.old.items) }
    ensures len { vec_len records.new ≤ vec_len records.old + 1 }
    ensures capacity { vec_capacity records.old ≤ vec_capacity records.new }
    ensures full { OnErr result (vec_capacity records.old ≤ vec_len records.old) }
{
    match place_of(records, &id) {
        Ok(place) => records[place].1 = value,
        Err(place) => records.insert(place, (id, value))?,
    }
    Ok(())
}

/// `Ok` with the index of the record, or `Err` with the index at which it would be inserted.
fn place_of(records: &[(RecordId, Value)], id: &RecordId) -> Result<usize, usize>
    ensures here { IfOk result (λ n. (n < length records.now) × ((value : List ℕ) (other : RecordId × List ℕ)
        → with_record id.now value records.now ≡ slice_set records.now n ((slice_index_or records.now n other).0, value))) }
    ensures absent { IfErr result (λ n. (n ≤ length records.now) × ((value : List ℕ)
        → with_record id.now value records.now ≡ insert records.now n (id.now, value))) }
{
    for (place, record) in records.iter().enumerate() {
        match id.cmp(&record.0) {
            Ordering::Less => return Err(place),
            Ordering::Equal => return Ok(place),
            Ordering::Greater => {}
        }
    }
    Err(records.len())
}

fn drop_record(records: &mut Vec<(RecordId, Value)>, id: &RecordId)
    ensures items { records.new.items ≡ without_record id.now records.old.items }
    ensures len { vec_len records.new ≤ vec_len records.old }
    ensures capacity { vec_capacity records.new ≡ vec_capacity records.old }
{
    records.retain(|record| record.0 != *id);
}

fn drop_string(records: &mut Vec<(RecordId, Value)>, key: &Key)
    ensures items { records.new.items ≡ without_record (RecordId.Str key.now) records.old.items }
    ensures len { vec_len records.new ≤ vec_len records.old }
    ensures capacity { vec_capacity records.new ≡ vec_capacity records.old }
{
    records.retain(|record| !record.0.is_string_at(key));
}

fn drop_key(records: &mut Vec<(RecordId, Value)>, key: &Key)
    ensures items { records.new.items ≡ without_key key.now records.old.items }
    ensures len { vec_len records.new ≤ vec_len records.old }
    ensures capacity { vec_capacity records.new ≡ vec_capacity records.old }
{
    records.retain(|record| *record.0.key() != *key);
}

//! The commands that write and remove fields.
ghost use Rattle.std.specs.Prelude.{◌≡◌, ◌≤◌, IsTrue, map, length, IfOk};
ghost use Rattle.std.specs.List.{AllByRecursion, filter};
ghost use Rattle.kv_types.specs.declared.limits.TheConstants.{MAX_KEY_BYTES, MAX_VALUE_BYTES};
ghost use Rattle.kv_types.specs.declared.change.Change.TheVariants.{Drop};
ghost use Rattle.kv_types.specs.declared.record_id.RecordId.TheVariants.{Field};
ghost use Rattle.cmd_core.specs.declared.shape.WordCount.TheVariants.{Exactly, AtLeast, EvenFrom};
ghost use Rattle.cmd_core.specs.declared.shape.Keys.TheVariants.{FirstTwo, All, EverySecond, FirstAndPairs};
ghost use Rattle.cmd_core.specs.Outcome.{outcome_now};
ghost use Rattle.cmd_core.specs.Shape.{Fits, are_short};
ghost use Rattle.cmd_hash.specs.Hash.{has_field};
ghost use Rattle.cmd_hash.specs.Writing as spec;

use bytes::Bytes;
use cmd_core::{Answer, Lookup, Outcome, check_hash, firsts, stored};
use kv_types::{Change, Field, Key, RecordId};
use std::alloc::{AllocError, Global};

/// HSET key field value ..: writes all, in the order of the words, and answers how many fields are new.
pub fn hset<L: Lookup>(
    alloc: Global,
    lookup: &L,
    arguments: &[Bytes],
) -> Result<Outcome, AllocError>
    requires { Fits (EvenFrom 4) FirstAndPairs arguments.now }
    ensures { IfOk result (λ o. outcome_now o ≡ spec.hset (L.keyspace lookup.now) arguments.now) }
{
    let [key, pairs @ ..] = arguments else {
        unreachable!();
    };
    if let Err(error) = check_hash(lookup, key.as_slice()) {
        return Ok(Outcome::Fails(error));
    }
    let absent = absent_fields(alloc, lookup, key.as_slice(), pairs)?;
    let count = firsts(alloc, absent.as_slice())?.len() as i64;
    let key = stored(alloc, key.as_slice())?;
    Ok(Outcome::Answers {
        answer: Answer::Integer(count),
        changes: puts_of(alloc, &key, pairs)?,
    })
}

/// HSETNX key field value: writes where the field is absent.
pub fn hsetnx<L: Lookup>(
    alloc: Global,
    lookup: &L,
    arguments: &[Bytes],
) -> Result<Outcome, AllocError>
    requires { Fits (Exactly 4) FirstTwo arguments.now }
    ensures { IfOk result (λ o. outcome_now o ≡ spec.hsetnx (L.keyspace lookup.now) arguments.now) }
{
    let [key, field, value] = arguments else {
        unreachable!();
    };
    if let Err(error) = check_hash(lookup, key.as_slice()) {
        return Ok(Outcome::Fails(error));
    }
    if lookup.field(key.as_slice(), field.as_slice()).is_some() {
        return Ok(Outcome::reads(alloc, Answer::Integer(0)));
    }
    let key = stored(alloc, key.as_slice())?;
    let id = RecordId::Field(key, stored(alloc, field.as_slice())?);
    let value = stored(alloc, value.as_slice())?;
    Outcome::puts(alloc, Answer::Integer(1), id, value)
}

/// HDEL key field ..: removes each field that is present, and answers how many.
pub fn hdel<L: Lookup>(
    alloc: Global,
    lookup: &L,
    arguments: &[Bytes],
) -> Result<Outcome, AllocError>
    requires { Fits (AtLeast 3) All arguments.now }
    ensures { IfOk result (λ o. outcome_now o ≡ spec.hdel (L.keyspace lookup.now) arguments.now) }
{
    let [key, fields @ ..] = arguments else {
        unreachable!();
    };
    if let Err(error) = check_hash(lookup, key.as_slice()) {
        return Ok(Outcome::Fails(error));
    }
    let present = present_fields(alloc, lookup, key.as_slice(), fields)?;
    let removed = firsts(alloc, present.as_slice())?;
    let count = removed.len() as i64;
    let key = stored(alloc, key.as_slice())?;
    Ok(Outcome::Answers {
        answer: Answer::Integer(count),
        changes: drops_of(alloc, &key, removed)?,
    })
}

/// The absent ones of fields that stand with values by turns.
fn absent_fields<L: Lookup>(
    alloc: Global,
    lookup: &L,
    key: &[u8],
    pairs: &[Bytes],
) -> Result<Vec<Field>, AllocError>
    requires { IsTrue (are_short EverySecond pairs.now) }
    ensures { IfOk result (λ absent. absent.items ≡ spec.absent (L.keyspace lookup.now) key.now pairs.now) }
{
    let mut absent = Vec::new(alloc);
    let mut left = pairs;
    while let [field, _, rest @ ..] = left {
        if lookup.field(key, field.as_slice()).is_none() {
            absent.push(stored(alloc, field.as_slice())?)?;
        }
        left = rest;
    }
    Ok(absent)
}

/// The present ones of fields.
fn present_fields<L: Lookup>(
    alloc: Global,
    lookup: &L,
    key: &[u8],
    fields: &[Bytes],
) -> Result<Vec<Field>, AllocError>
    requires { IsTrue (are_short All fields.now) }
    ensures { IfOk result (λ present. present.items ≡ filter (has_field (L.keyspace lookup.now) key.now) fields.now) }
{
    let mut present = Vec::new(alloc);
    let mut left = fields;
    while let [field, rest @ ..] = left {
        if lookup.field(key, field.as_slice()).is_some() {
            present.push(stored(alloc, field.as_slice())?)?;
        }
        left = rest;
    }
    Ok(present)
}

/// The puts of fields and values by turns.
fn puts_of(alloc: Global, key: &Key, pairs: &[Bytes]) -> Result<Vec<Change>, AllocError>
    requires names { IsTrue (are_short EverySecond pairs.now) }
    requires values { AllByRecursion (λ word. length word ≤ MAX_VALUE_BYTES) pairs.now }
    ensures { IfOk result (λ changes. changes.items ≡ spec.puts_of key.now pairs.now) }
{
    let mut changes = Vec::new(alloc);
    let mut left = pairs;
    while let [field, value, rest @ ..] = left {
        let id = RecordId::Field(key.clone()?, stored(alloc, field.as_slice())?);
        changes.push(Change::Put(id, stored(alloc, value.as_slice())?))?;
        left = rest;
    }
    Ok(changes)
}

/// The drops of fields, in their order.
fn drops_of(alloc: Global, key: &Key, fields: Vec<Field>) -> Result<Vec<Change>, AllocError>
    ensures { IfOk result (λ drops. drops.items ≡ map (λ field. Drop (Field key.now field)) fields.items) }
{
    let mut drops = Vec::new(alloc);
    for field in fields {
        drops.push(Change::Drop(RecordId::Field(key.clone()?, field)))?;
    }
    Ok(drops)
}

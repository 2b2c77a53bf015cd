//! The commands that read fields by their names.
ghost use Rattle.std.specs.Prelude.{◌≡◌, ◌≤◌, map, IfOk};
ghost use Rattle.std.specs.Option.{option_copied};
ghost use Rattle.kv_types.specs.declared.limits.TheConstants.{MAX_VALUE_BYTES};
ghost use Rattle.cmd_core.specs.declared.shape.WordCount.TheVariants.{Exactly, AtLeast};
ghost use Rattle.cmd_core.specs.declared.shape.Keys.TheVariants.{All};
ghost use Rattle.cmd_core.specs.Outcome.{outcome_now};
ghost use Rattle.cmd_core.specs.Shape.{Fits};
ghost use Rattle.cmd_hash.specs.Hash.{value_of};
ghost use Rattle.cmd_hash.specs.Reading as spec;

use bytes::Bytes;
use cmd_core::{Answer, Lookup, Outcome, check_hash};
use kv_types::{Payload, Value};
use std::alloc::{AllocError, Global};

/// HGET key field: the value of a field, shared.
pub fn hget<L: Lookup>(
    alloc: Global,
    lookup: &L,
    arguments: &[Bytes],
) -> Result<Outcome, AllocError>
    requires { Fits (Exactly 3) All arguments.now }
    ensures { IfOk result (λ o. outcome_now o ≡ spec.hget (L.keyspace lookup.now) arguments.now) }
{
    let [key, field] = arguments else {
        unreachable!();
    };
    if let Err(error) = check_hash(lookup, key.as_slice()) {
        return Ok(Outcome::Fails(error));
    }
    let value = shared_value(lookup, key.as_slice(), field.as_slice())?;
    Ok(Outcome::reads(alloc, Answer::Bulk(value)))
}

/// HMGET key field ..: the value of each field, shared, and none for an absent one.
pub fn hmget<L: Lookup>(
    alloc: Global,
    lookup: &L,
    arguments: &[Bytes],
) -> Result<Outcome, AllocError>
    requires { Fits (AtLeast 3) All arguments.now }
    ensures { IfOk result (λ o. outcome_now o ≡ spec.hmget (L.keyspace lookup.now) arguments.now) }
{
    let [key, fields @ ..] = arguments else {
        unreachable!();
    };
    if let Err(error) = check_hash(lookup, key.as_slice()) {
        return Ok(Outcome::Fails(error));
    }
    let values = values_of(alloc, lookup, key.as_slice(), fields)?;
    Ok(Outcome::reads(alloc, Answer::Bulks(values)))
}

/// HEXISTS key field: whether the field is there.
pub fn hexists<L: Lookup>(alloc: Global, lookup: &L, arguments: &[Bytes]) -> Outcome
    requires { Fits (Exactly 3) All arguments.now }
    ensures { outcome_now result ≡ spec.hexists (L.keyspace lookup.now) arguments.now }
{
    let [key, field] = arguments else {
        unreachable!();
    };
    if let Err(error) = check_hash(lookup, key.as_slice()) {
        return Outcome::Fails(error);
    }
    let found = lookup.field(key.as_slice(), field.as_slice()).is_some();
    Outcome::reads(alloc, Answer::Integer(if found { 1 } else { 0 }))
}

/// HSTRLEN key field: how many bytes the value of a field has.
pub fn hstrlen<L: Lookup>(alloc: Global, lookup: &L, arguments: &[Bytes]) -> Outcome
    requires { Fits (Exactly 3) All arguments.now }
    ensures { outcome_now result ≡ spec.hstrlen (L.keyspace lookup.now) arguments.now }
{
    let [key, field] = arguments else {
        unreachable!();
    };
    if let Err(error) = check_hash(lookup, key.as_slice()) {
        return Outcome::Fails(error);
    }
    let len = len_of(lookup.field(key.as_slice(), field.as_slice())) as i64;
    Outcome::reads(alloc, Answer::Integer(len))
}

/// The values of fields, each shared, and none for an absent one.
fn values_of<L: Lookup>(
    alloc: Global,
    lookup: &L,
    key: &[u8],
    fields: &[Bytes],
) -> Result<Vec<Option<Payload>>, AllocError>
    ensures { IfOk result (λ values. values.items ≡ map (λ field. value_of (L.keyspace lookup.now) key.now field) fields.now) }
{
    let mut values = Vec::new(alloc);
    for field in fields {
        values.push(shared_value(lookup, key, field.as_slice())?)?;
    }
    Ok(values)
}

/// The value of a field, shared.
fn shared_value<L: Lookup>(
    lookup: &L,
    key: &[u8],
    field: &[u8],
) -> Result<Option<Payload>, AllocError>
    ensures { IfOk result (λ value. value ≡ value_of (L.keyspace lookup.now) key.now field.now) }
{
    match lookup.field(key, field) {
        Some(value) => Ok(Some(value.to_payload()?)),
        None => Ok(None),
    }
}

/// How many bytes a value has; 0 where there is none.
fn len_of(value: Option<&Value>) -> usize
    ensures value { result ≡ spec.length_of (option_copied value.entry) }
    ensures bound { result ≤ MAX_VALUE_BYTES }
{
    match value {
        Some(value) => value.len(),
        None => 0,
    }
}

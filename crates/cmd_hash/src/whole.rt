//! The commands that read a whole hash, in ascending bytes of the field.
ghost use Rattle.std.specs.Prelude.{◌≡◌, IfOk};
ghost use Rattle.cmd_core.specs.declared.shape.WordCount.TheVariants.{Exactly};
ghost use Rattle.cmd_core.specs.declared.shape.Keys.TheVariants.{First};
ghost use Rattle.cmd_core.specs.Outcome.{outcome_now};
ghost use Rattle.cmd_core.specs.Shape.{Fits};
ghost use Rattle.cmd_hash.specs.Whole as spec;

use bytes::Bytes;
use cmd_core::{Answer, Lookup, Outcome, check_hash};
use kv_types::{Field, Payload, Value};
use std::alloc::{AllocError, Global};

/// HLEN key: how many fields there are.
pub fn hlen<L: Lookup>(alloc: Global, lookup: &L, arguments: &[Bytes]) -> Outcome
    requires { Fits (Exactly 2) First arguments.now }
    ensures { outcome_now result ≡ spec.hlen (L.keyspace lookup.now) arguments.now }
{
    let [key] = arguments else {
        unreachable!();
    };
    if let Err(error) = check_hash(lookup, key.as_slice()) {
        return Outcome::Fails(error);
    }
    let count = lookup.count_fields(key.as_slice()) as i64;
    Outcome::reads(alloc, Answer::Integer(count))
}

/// HGETALL key: each field and its value, shared.
pub fn hgetall<L: Lookup>(
    alloc: Global,
    lookup: &L,
    arguments: &[Bytes],
) -> Result<Outcome, AllocError>
    requires { Fits (Exactly 2) First arguments.now }
    ensures { IfOk result (λ o. outcome_now o ≡ spec.hgetall (L.keyspace lookup.now) arguments.now) }
{
    let [key] = arguments else {
        unreachable!();
    };
    if let Err(error) = check_hash(lookup, key.as_slice()) {
        return Ok(Outcome::Fails(error));
    }
    let fields = lookup.fields(alloc, key.as_slice())?;
    let bulks = by_turns(alloc, fields.as_slice())?;
    Ok(Outcome::reads(alloc, Answer::Bulks(bulks)))
}

/// HKEYS key: each field, shared.
pub fn hkeys<L: Lookup>(
    alloc: Global,
    lookup: &L,
    arguments: &[Bytes],
) -> Result<Outcome, AllocError>
    requires { Fits (Exactly 2) First arguments.now }
    ensures { IfOk result (λ o. outcome_now o ≡ spec.hkeys (L.keyspace lookup.now) arguments.now) }
{
    let [key] = arguments else {
        unreachable!();
    };
    if let Err(error) = check_hash(lookup, key.as_slice()) {
        return Ok(Outcome::Fails(error));
    }
    let mut names = Vec::new(alloc);
    for (field, _) in lookup.fields(alloc, key.as_slice())? {
        names.push(Some(field.into_payload()))?;
    }
    Ok(Outcome::reads(alloc, Answer::Bulks(names)))
}

/// HVALS key: the value of each field, shared.
pub fn hvals<L: Lookup>(
    alloc: Global,
    lookup: &L,
    arguments: &[Bytes],
) -> Result<Outcome, AllocError>
    requires { Fits (Exactly 2) First arguments.now }
    ensures { IfOk result (λ o. outcome_now o ≡ spec.hvals (L.keyspace lookup.now) arguments.now) }
{
    let [key] = arguments else {
        unreachable!();
    };
    if let Err(error) = check_hash(lookup, key.as_slice()) {
        return Ok(Outcome::Fails(error));
    }
    let mut values = Vec::new(alloc);
    for (_, value) in lookup.fields(alloc, key.as_slice())? {
        values.push(Some(value.into_payload()))?;
    }
    Ok(Outcome::reads(alloc, Answer::Bulks(values)))
}

/// Fields and values by turns, each shared.
fn by_turns(alloc: Global, fields: &[(Field, Value)]) -> Result<Vec<Option<Payload>>, AllocError>
    ensures { IfOk result (λ bulks. bulks.items ≡ spec.by_turns fields.now) }
{
    let mut bulks = Vec::new(alloc);
    let mut left = fields;
    while let [(field, value), rest @ ..] = left {
        bulks.push(Some(field.to_payload()?))?;
        bulks.push(Some(value.to_payload()?))?;
        left = rest;
    }
    Ok(bulks)
}

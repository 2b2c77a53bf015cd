//! The commands that read and write strings.
ghost use Rattle.std.specs.Prelude.{◌≡◌, ◌≤◌, ◌++◌, [], ◌∷◌, length, IfOk};
ghost use Rattle.std.specs.List.{list_any};
ghost use Rattle.std.specs.Option.{option_copied};
ghost use Rattle.kv_types.specs.declared.limits.TheConstants.{MAX_KEY_BYTES, MAX_VALUE_BYTES};
ghost use Rattle.kv_types.specs.declared.change.Change.TheVariants.{Put};
ghost use Rattle.kv_types.specs.declared.record_id.RecordId.TheVariants.{Str};
ghost use Rattle.cmd_core.specs.declared.shape.WordCount.TheVariants.{Exactly, AtLeast, OddFrom};
ghost use Rattle.cmd_core.specs.declared.shape.Keys.TheVariants.{First, All, EverySecond};
ghost use Rattle.cmd_core.specs.Contents.{has_key};
ghost use Rattle.cmd_core.specs.Outcome.{outcome_now, answer_now, Answers};
ghost use Rattle.cmd_core.specs.Shape.{Fits};
ghost use Rattle.cmd_string.specs.Strings as spec;

use crate::condition::Condition;
use bytes::Bytes;
use cmd_core::{Answer, CommandError, Lookup, Outcome, Status, stored, string_at};
use kv_types::{Change, MAX_VALUE_BYTES, RecordId, Value};
use std::alloc::{AllocError, Global};

/// GET key: the value of a string, shared.
pub fn get<L: Lookup>(alloc: Global, lookup: &L, arguments: &[Bytes]) -> Result<Outcome, AllocError>
    requires { Fits (Exactly 2) First arguments.now }
    ensures { IfOk result (λ o. outcome_now o ≡ spec.get (L.keyspace lookup.now) arguments.now) }
{
    let [key] = arguments else {
        unreachable!();
    };
    let value = match string_at(lookup, key.as_slice()) {
        Ok(Some(value)) => Some(value.to_payload()?),
        Ok(None) => None,
        Err(error) => return Ok(Outcome::Fails(error)),
    };
    Ok(Outcome::reads(alloc, Answer::Bulk(value)))
}

/// SET key value [NX | XX ..]: writes, over a value of any kind, where the options allow it.
pub fn set<L: Lookup>(alloc: Global, lookup: &L, arguments: &[Bytes]) -> Result<Outcome, AllocError>
    requires { Fits (AtLeast 3) First arguments.now }
    ensures { IfOk result (λ o. outcome_now o ≡ spec.set (L.keyspace lookup.now) arguments.now) }
{
    let [key, value, options @ ..] = arguments else {
        unreachable!();
    };
    let Some(condition) = Condition::of(options) else {
        return Ok(Outcome::Fails(CommandError::Syntax));
    };
    if !condition.allows(lookup, key.as_slice()) {
        return Ok(Outcome::reads(alloc, Answer::Bulk(None)));
    }
    let value = stored(alloc, value.as_slice())?;
    put_string(alloc, Answer::Simple(Status::Ok), key.as_slice(), value)
}

/// SETNX key value: writes where the key is absent.
pub fn setnx<L: Lookup>(
    alloc: Global,
    lookup: &L,
    arguments: &[Bytes],
) -> Result<Outcome, AllocError>
    requires { Fits (Exactly 3) First arguments.now }
    ensures { IfOk result (λ o. outcome_now o ≡ spec.setnx (L.keyspace lookup.now) arguments.now) }
{
    let [key, value] = arguments else {
        unreachable!();
    };
    if lookup.has(key.as_slice()) {
        return Ok(Outcome::reads(alloc, Answer::Integer(0)));
    }
    let value = stored(alloc, value.as_slice())?;
    put_string(alloc, Answer::Integer(1), key.as_slice(), value)
}

/// GETDEL key: the value of a string, shared, whose key is removed.
pub fn getdel<L: Lookup>(
    alloc: Global,
    lookup: &L,
    arguments: &[Bytes],
) -> Result<Outcome, AllocError>
    requires { Fits (Exactly 2) First arguments.now }
    ensures { IfOk result (λ o. outcome_now o ≡ spec.getdel (L.keyspace lookup.now) arguments.now) }
{
    let [key] = arguments else {
        unreachable!();
    };
    let value = match string_at(lookup, key.as_slice()) {
        Ok(Some(value)) => value.to_payload()?,
        Ok(None) => return Ok(Outcome::reads(alloc, Answer::Bulk(None))),
        Err(error) => return Ok(Outcome::Fails(error)),
    };
    let key = stored(alloc, key.as_slice())?;
    Ok(Outcome::Answers {
        answer: Answer::Bulk(Some(value)),
        changes: vec![in alloc; Change::DropKey(key)]?,
    })
}

/// STRLEN key: how many bytes a string has.
pub fn strlen<L: Lookup>(alloc: Global, lookup: &L, arguments: &[Bytes]) -> Outcome
    requires { Fits (Exactly 2) First arguments.now }
    ensures { outcome_now result ≡ spec.strlen (L.keyspace lookup.now) arguments.now }
{
    let [key] = arguments else {
        unreachable!();
    };
    match string_at(lookup, key.as_slice()) {
        Ok(value) => {
            let len = bytes_of(value).len() as i64;
            Outcome::reads(alloc, Answer::Integer(len))
        }
        Err(error) => Outcome::Fails(error),
    }
}

/// APPEND key value: writes the string with more bytes behind it.
pub fn append<L: Lookup>(
    alloc: Global,
    lookup: &L,
    arguments: &[Bytes],
) -> Result<Outcome, AllocError>
    requires { Fits (Exactly 3) First arguments.now }
    ensures { IfOk result (λ o. outcome_now o ≡ spec.append (L.keyspace lookup.now) arguments.now) }
{
    let [key, more] = arguments else {
        unreachable!();
    };
    let old = match string_at(lookup, key.as_slice()) {
        Ok(value) => bytes_of(value),
        Err(error) => return Ok(Outcome::Fails(error)),
    };
    if old.len() + more.len() > MAX_VALUE_BYTES {
        return Ok(Outcome::Fails(CommandError::LongString));
    }
    let value = joined(alloc, old, more.as_slice())?;
    let len = value.len() as i64;
    put_string(alloc, Answer::Integer(len), key.as_slice(), value)
}

/// MGET key ..: the value of each string, shared, and none for an absent key or a hash.
pub fn mget<L: Lookup>(
    alloc: Global,
    lookup: &L,
    arguments: &[Bytes],
) -> Result<Outcome, AllocError>
    requires { Fits (AtLeast 2) All arguments.now }
    ensures { IfOk result (λ o. outcome_now o ≡ spec.mget (L.keyspace lookup.now) arguments.now) }
{
    let mut values = Vec::new(alloc);
    for key in arguments {
        let value = match lookup.string(key.as_slice()) {
            Some(value) => Some(value.to_payload()?),
            None => None,
        };
        values.push(value)?;
    }
    Ok(Outcome::reads(alloc, Answer::Bulks(values)))
}

/// MSET key value ..: writes all, in the order of the words.
pub fn mset(alloc: Global, arguments: &[Bytes]) -> Result<Outcome, AllocError>
    requires { Fits (OddFrom 3) EverySecond arguments.now }
    ensures { IfOk result (λ o. outcome_now o ≡ spec.mset arguments.now) }
{
    Ok(Outcome::Answers {
        answer: Answer::Simple(Status::Ok),
        changes: puts_of(alloc, arguments)?,
    })
}

/// MSETNX key value ..: writes all where every key is absent, and else nothing.
pub fn msetnx<L: Lookup>(
    alloc: Global,
    lookup: &L,
    arguments: &[Bytes],
) -> Result<Outcome, AllocError>
    requires { Fits (OddFrom 3) EverySecond arguments.now }
    ensures { IfOk result (λ o. outcome_now o ≡ spec.msetnx (L.keyspace lookup.now) arguments.now) }
{
    if has_any(lookup, arguments) {
        return Ok(Outcome::reads(alloc, Answer::Integer(0)));
    }
    Ok(Outcome::Answers {
        answer: Answer::Integer(1),
        changes: puts_of(alloc, arguments)?,
    })
}

/// Answers, and puts a string at a key.
fn put_string(
    alloc: Global,
    answer: Answer,
    key: &[u8],
    value: Value,
) -> Result<Outcome, AllocError>
    requires { length key.now ≤ MAX_KEY_BYTES }
    ensures { IfOk result (λ o. outcome_now o ≡ Answers (answer_now answer) (Put (Str key.now) value ∷ [])) }
{
    let id = RecordId::Str(stored(alloc, key)?);
    Outcome::puts(alloc, answer, id, value)
}

/// The puts of keys and values by turns.
fn puts_of(alloc: Global, words: &[Bytes]) -> Result<Vec<Change>, AllocError>
    requires { Fits (OddFrom 3) EverySecond words.now }
    ensures { IfOk result (λ changes. changes.items ≡ spec.puts_of words.now) }
{
    let mut changes = Vec::new(alloc);
    let mut left = words;
    while let [key, value, rest @ ..] = left {
        let id = RecordId::Str(stored(alloc, key.as_slice())?);
        changes.push(Change::Put(id, stored(alloc, value.as_slice())?))?;
        left = rest;
    }
    Ok(changes)
}

/// Whether a key is present, of keys and values by turns.
fn has_any<L: Lookup>(lookup: &L, words: &[Bytes]) -> bool
    ensures { result ≡ list_any (has_key (L.keyspace lookup.now)) (spec.keys_of_pairs words.now) }
{
    let mut left = words;
    while let [key, _, rest @ ..] = left {
        if lookup.has(key.as_slice()) {
            return true;
        }
        left = rest;
    }
    false
}

fn bytes_of(value: Option<&Value>) -> &[u8]
    ensures { result.now ≡ spec.bytes_of (option_copied value.entry) }
{
    match value {
        Some(value) => value.as_slice(),
        None => &[],
    }
}

/// The bytes of both, which are few enough for a value.
fn joined(alloc: Global, first: &[u8], second: &[u8]) -> Result<Value, AllocError>
    requires { length (first.now ++ second.now) ≤ MAX_VALUE_BYTES }
    ensures { IfOk result (λ value. value ≡ first.now ++ second.now) }
{
    let mut bytes = Vec::with_capacity(alloc, first.len() + second.len())?;
    bytes.extend_from_slice(first)?;
    bytes.extend_from_slice(second)?;
    Value::from_vec(alloc, bytes)
}

//! The commands on keys, whatever they hold.
ghost use Rattle.std.specs.Prelude.{◌≡◌, ◌≤◌, length, map, IsTrue, IfOk};
ghost use Rattle.std.specs.List.{filter};
ghost use Rattle.kv_types.specs.declared.change.Change.TheVariants.{DropKey};
ghost use Rattle.cmd_core.specs.declared.shape.WordCount.TheVariants.{Exactly, AtLeast};
ghost use Rattle.cmd_core.specs.declared.shape.Keys.TheVariants as shape;
ghost use Rattle.cmd_core.specs.declared.shape.Keys.TheVariants.{First, All};
ghost use Rattle.cmd_core.specs.Contents.{has_key, kind_at};
ghost use Rattle.cmd_core.specs.Outcome.{outcome_now};
ghost use Rattle.cmd_core.specs.Shape.{Fits, are_short};
ghost use Rattle.cmd_string.specs.Keys as spec;

use bytes::Bytes;
use cmd_core::{Answer, CommandError, Lookup, Outcome, Status, firsts, stored};
use kv_types::{Change, Key};
use std::alloc::{AllocError, Global};

/// DEL key ..: removes each key that is present, and answers how many.
pub fn del<L: Lookup>(alloc: Global, lookup: &L, arguments: &[Bytes]) -> Result<Outcome, AllocError>
    requires { Fits (AtLeast 2) All arguments.now }
    ensures { IfOk result (λ o. outcome_now o ≡ spec.del (L.keyspace lookup.now) arguments.now) }
{
    let changes = drops_of(alloc, lookup, arguments)?;
    let removed = changes.len() as i64;
    Ok(Outcome::Answers {
        answer: Answer::Integer(removed),
        changes,
    })
}

/// EXISTS key ..: how many of the keys are present, each counted as often as it is named.
pub fn exists<L: Lookup>(alloc: Global, lookup: &L, arguments: &[Bytes]) -> Outcome
    requires { Fits (AtLeast 2) All arguments.now }
    ensures { outcome_now result ≡ spec.exists (L.keyspace lookup.now) arguments.now }
{
    let count = count_present(lookup, arguments) as i64;
    Outcome::reads(alloc, Answer::Integer(count))
}

/// TYPE key: what the key holds.
pub fn type_of<L: Lookup>(alloc: Global, lookup: &L, arguments: &[Bytes]) -> Outcome
    requires { Fits (Exactly 2) First arguments.now }
    ensures { outcome_now result ≡ spec.type_of (L.keyspace lookup.now) arguments.now }
{
    let [key] = arguments else {
        unreachable!();
    };
    let status = status_at(lookup, key.as_slice());
    Outcome::reads(alloc, Answer::Simple(status))
}

/// DBSIZE: how many keys there are.
pub fn dbsize<L: Lookup>(alloc: Global, lookup: &L, arguments: &[Bytes]) -> Outcome
    requires { Fits (Exactly 1) shape.None arguments.now }
    ensures { outcome_now result ≡ spec.dbsize (L.keyspace lookup.now) arguments.now }
{
    let [] = arguments else {
        unreachable!();
    };
    let count = lookup.count_keys() as i64;
    Outcome::reads(alloc, Answer::Integer(count))
}

/// FLUSHDB: removes all keys. It takes no option.
pub fn flushdb<L: Lookup>(
    alloc: Global,
    lookup: &L,
    arguments: &[Bytes],
) -> Result<Outcome, AllocError>
    requires { Fits (AtLeast 1) shape.None arguments.now }
    ensures { IfOk result (λ o. outcome_now o ≡ spec.flushdb (L.keyspace lookup.now) arguments.now) }
{
    if !arguments.is_empty() {
        return Ok(Outcome::Fails(CommandError::Syntax));
    }
    let answer = Answer::Simple(Status::Ok);
    if lookup.count_keys() == 0 {
        return Ok(Outcome::reads(alloc, answer));
    }
    Ok(Outcome::Answers {
        answer,
        changes: vec![in alloc; Change::Clear]?,
    })
}

/// The word for what a key holds.
fn status_at<L: Lookup>(lookup: &L, key: &[u8]) -> Status
    ensures { result ≡ spec.status_of (kind_at (L.keyspace lookup.now) key.now) }
{
    if lookup.string(key).is_some() {
        Status::String
    } else if lookup.has(key) {
        Status::Hash
    } else {
        Status::None
    }
}

/// The drops of the keys that are present, each once, in the order of first naming.
fn drops_of<L: Lookup>(alloc: Global, lookup: &L, keys: &[Bytes]) -> Result<Vec<Change>, AllocError>
    requires { IsTrue (are_short All keys.now) }
    ensures { IfOk result (λ drops. drops.items ≡ map DropKey (spec.removed (L.keyspace lookup.now) keys.now)) }
{
    let present = present_keys(alloc, lookup, keys)?;
    let mut drops = Vec::new(alloc);
    for key in firsts(alloc, present.as_slice())? {
        drops.push(Change::DropKey(key))?;
    }
    Ok(drops)
}

/// The present ones of keys.
fn present_keys<L: Lookup>(
    alloc: Global,
    lookup: &L,
    keys: &[Bytes],
) -> Result<Vec<Key>, AllocError>
    requires { IsTrue (are_short All keys.now) }
    ensures { IfOk result (λ present. present.items ≡ filter (has_key (L.keyspace lookup.now)) keys.now) }
{
    let mut present = Vec::new(alloc);
    let mut left = keys;
    while let [key, rest @ ..] = left {
        if lookup.has(key.as_slice()) {
            present.push(stored(alloc, key.as_slice())?)?;
        }
        left = rest;
    }
    Ok(present)
}

fn count_present<L: Lookup>(lookup: &L, keys: &[Bytes]) -> usize
    ensures value { result ≡ length (filter (has_key (L.keyspace lookup.now)) keys.now) }
    ensures bound { result ≤ length keys.now }
{
    keys.iter().filter(|key| lookup.has(key.as_slice())).count()
}

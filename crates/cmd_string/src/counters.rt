//! The commands that count: a string that is the text of an integer goes up or down.
ghost use Rattle.std.specs.Prelude.{◌≡◌, ◌≤◌, length, IfOk};
ghost use Rattle.kv_types.specs.declared.limits.TheConstants.{MAX_KEY_BYTES};
ghost use Rattle.cmd_core.specs.declared.shape.WordCount.TheVariants.{Exactly};
ghost use Rattle.cmd_core.specs.declared.shape.Keys.TheVariants.{First};
ghost use Rattle.cmd_core.specs.Outcome.{outcome_now};
ghost use Rattle.cmd_core.specs.Shape.{Fits};
ghost use Rattle.cmd_string.specs.Counters as spec;

use bytes::Bytes;
use cmd_core::{CommandError, Lookup, Outcome, increase, int_of, stored, string_at};
use kv_types::RecordId;
use std::alloc::{AllocError, Global};

/// INCR key: one more.
pub fn incr<L: Lookup>(
    alloc: Global,
    lookup: &L,
    arguments: &[Bytes],
) -> Result<Outcome, AllocError>
    requires { Fits (Exactly 2) First arguments.now }
    ensures { IfOk result (λ o. outcome_now o ≡ spec.incr (L.keyspace lookup.now) arguments.now) }
{
    let [key] = arguments else {
        unreachable!();
    };
    add(alloc, lookup, key.as_slice(), 1)
}

/// DECR key: one less.
pub fn decr<L: Lookup>(
    alloc: Global,
    lookup: &L,
    arguments: &[Bytes],
) -> Result<Outcome, AllocError>
    requires { Fits (Exactly 2) First arguments.now }
    ensures { IfOk result (λ o. outcome_now o ≡ spec.decr (L.keyspace lookup.now) arguments.now) }
{
    let [key] = arguments else {
        unreachable!();
    };
    add(alloc, lookup, key.as_slice(), -1)
}

/// INCRBY key n: n more.
pub fn incrby<L: Lookup>(
    alloc: Global,
    lookup: &L,
    arguments: &[Bytes],
) -> Result<Outcome, AllocError>
    requires { Fits (Exactly 3) First arguments.now }
    ensures { IfOk result (λ o. outcome_now o ≡ spec.incrby (L.keyspace lookup.now) arguments.now) }
{
    let [key, amount] = arguments else {
        unreachable!();
    };
    let Some(amount) = int_of(amount.as_slice()) else {
        return Ok(Outcome::Fails(CommandError::NotAnInteger));
    };
    add(alloc, lookup, key.as_slice(), amount)
}

/// DECRBY key n: n less, where n has an opposite.
pub fn decrby<L: Lookup>(
    alloc: Global,
    lookup: &L,
    arguments: &[Bytes],
) -> Result<Outcome, AllocError>
    requires { Fits (Exactly 3) First arguments.now }
    ensures { IfOk result (λ o. outcome_now o ≡ spec.decrby (L.keyspace lookup.now) arguments.now) }
{
    let [key, amount] = arguments else {
        unreachable!();
    };
    let Some(amount) = int_of(amount.as_slice()) else {
        return Ok(Outcome::Fails(CommandError::NotAnInteger));
    };
    let Some(opposite) = amount.checked_neg() else {
        return Ok(Outcome::Fails(CommandError::DecrementOverflow));
    };
    add(alloc, lookup, key.as_slice(), opposite)
}

/// The number at a key with an amount added to it, written in its place.
fn add<L: Lookup>(alloc: Global, lookup: &L, key: &[u8], amount: i64) -> Result<Outcome, AllocError>
    requires { length key.now ≤ MAX_KEY_BYTES }
    ensures { IfOk result (λ o. outcome_now o ≡ spec.added (L.keyspace lookup.now) key.now amount) }
{
    let value = match string_at(lookup, key) {
        Ok(value) => value,
        Err(error) => return Ok(Outcome::Fails(error)),
    };
    let id = RecordId::Str(stored(alloc, key)?);
    increase(alloc, id, value, amount, CommandError::NotAnInteger)
}

//! The command that counts in a field.
ghost use Rattle.std.specs.Prelude.{◌≡◌, IfOk};
ghost use Rattle.cmd_core.specs.declared.shape.WordCount.TheVariants.{Exactly};
ghost use Rattle.cmd_core.specs.declared.shape.Keys.TheVariants.{FirstTwo};
ghost use Rattle.cmd_core.specs.Outcome.{outcome_now};
ghost use Rattle.cmd_core.specs.Shape.{Fits};
ghost use Rattle.cmd_hash.specs.Counter as spec;

use bytes::Bytes;
use cmd_core::{CommandError, Lookup, Outcome, check_hash, increase, int_of, stored};
use kv_types::RecordId;
use std::alloc::{AllocError, Global};

/// HINCRBY key field n: n more, in a field that is the text of an integer.
pub fn hincrby<L: Lookup>(
    alloc: Global,
    lookup: &L,
    arguments: &[Bytes],
) -> Result<Outcome, AllocError>
    requires { Fits (Exactly 4) FirstTwo arguments.now }
    ensures { IfOk result (λ o. outcome_now o ≡ spec.hincrby (L.keyspace lookup.now) arguments.now) }
{
    let [key, field, amount] = arguments else {
        unreachable!();
    };
    let Some(amount) = int_of(amount.as_slice()) else {
        return Ok(Outcome::Fails(CommandError::NotAnInteger));
    };
    if let Err(error) = check_hash(lookup, key.as_slice()) {
        return Ok(Outcome::Fails(error));
    }
    let value = lookup.field(key.as_slice(), field.as_slice());
    let key = stored(alloc, key.as_slice())?;
    let id = RecordId::Field(key, stored(alloc, field.as_slice())?);
    increase(alloc, id, value, amount, CommandError::HashNotAnInteger)
}

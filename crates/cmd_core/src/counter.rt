//! Adding to a number that a record holds as text.
ghost use Rattle.std.specs.Prelude.{◌≡◌, IfOk};
ghost use Rattle.std.specs.Option.{option_copied};
ghost use Rattle.cmd_core.specs.Counter as spec;
ghost use Rattle.cmd_core.specs.Outcome.{outcome_now};

use crate::error::CommandError;
use crate::integer::{int_of, number_text};
use crate::outcome::{Answer, Outcome};
use kv_types::{RecordId, Value};
use std::alloc::{AllocError, Global};

/// The number of a record with an amount added to it, written in its place; no value counts as 0. The error is answered where the
/// value is no integer, and `Overflow` where the sum is out of range.
pub fn increase(
    alloc: Global,
    id: RecordId,
    value: Option<&Value>,
    amount: i64,
    error: CommandError,
) -> Result<Outcome, AllocError>
    ensures { IfOk result (λ o. outcome_now o ≡ spec.increased error id (option_copied value.entry) amount) }
{
    let Some(old) = number_of(value) else {
        return Ok(Outcome::Fails(error));
    };
    let Some(sum) = old.checked_add(amount) else {
        return Ok(Outcome::Fails(CommandError::Overflow));
    };
    let text = number_text(alloc, sum)?;
    Outcome::puts(alloc, Answer::Integer(sum), id, text)
}

/// The number of a value; 0 where there is none.
fn number_of(value: Option<&Value>) -> Option<i64>
    ensures { result ≡ spec.number_of (option_copied value.entry) }
{
    match value {
        Some(value) => int_of(value.as_slice()),
        None => Some(0),
    }
}

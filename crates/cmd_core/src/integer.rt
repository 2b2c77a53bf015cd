//! Integers as the texts of values and of arguments.
ghost use Rattle.std.specs.Prelude.{◌≡◌, IfOk};
ghost use Rattle.std.specs.Fmt.{signed_decimal};
ghost use Rattle.cmd_core.specs.Integer as spec;

use kv_types::{Value, read_int, write_int};
use std::alloc::{AllocError, Global};

/// The 64-bit integer of a text, and `None` where it is the text of none.
pub fn int_of(text: &[u8]) -> Option<i64>
    ensures { result ≡ spec.int_of text.now }
{
    read_int(text)
}

/// The text of an integer.
pub fn number_text(alloc: Global, number: i64) -> Result<Value, AllocError>
    ensures { IfOk result (λ text. text ≡ signed_decimal number) }
{
    write_int(alloc, number)
}

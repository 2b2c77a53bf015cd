//! Integers as texts: the one decimal text of each 64-bit signed integer, with no sign but a `-` and no needless zero.
ghost use Rattle.std.specs.Prelude.{◌≡◌, ◌≢◌, ℤ, IfSome, IfNone, IfOk, FitsSigned};
ghost use Rattle.std.specs.Int.{w64};
ghost use Rattle.std.specs.Fmt.{signed_decimal};

use crate::bounded::Value;
use itoa::Buffer;
use std::alloc::{AllocError, Global};
use std::str;

/// The integer of this text, or `None` if no 64-bit signed integer is written that way: `-0`, `01`, `+1` and an empty text are refused.
pub fn read_int(text: &[u8]) -> Option<i64>
    ensures found { IfSome result (λ n. text.now ≡ signed_decimal n) }
    ensures refused { IfNone result ((n : ℤ) → FitsSigned w64 n → text.now ≢ signed_decimal n) }
{
    let Ok(shown) = str::from_utf8(text) else {
        return None;
    };
    let Ok(number) = shown.parse::<i64>() else {
        return None;
    };
    // The text is the integer's own if writing the integer gives it back.
    let mut buffer = Buffer::new();
    if buffer.format(number).as_bytes() == text {
        Some(number)
    } else {
        None
    }
}

/// The text of an integer.
pub fn write_int(alloc: Global, number: i64) -> Result<Value, AllocError>
    ensures { IfOk result (λ text. text ≡ signed_decimal number) }
{
    let mut buffer = Buffer::new();
    Value::new(alloc, buffer.format(number).as_bytes())
}

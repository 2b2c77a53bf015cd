//! Numbers as texts.
ghost use Rattle.std.specs.Prelude.{◌≡◌, ◌≢◌, ◌^◌, ◌<◌, ℕ, IfSome, IfNone};
ghost use Rattle.std.specs.Fmt.{decimal};

use itoa::Buffer;
use std::str;

/// The number that this text writes, or `None` if no number below 2^64 is written so: `+1`, `01`, `1.0` and an empty text are refused.
pub fn read_number(text: &[u8]) -> Option<u64>
    ensures found { IfSome result (λ n. text.now ≡ decimal n) }
    ensures refused { IfNone result ((n : ℕ) → n < 2 ^ 64 → text.now ≢ decimal n) }
{
    let Ok(shown) = str::from_utf8(text) else {
        return None;
    };
    let Ok(number) = shown.parse::<u64>() else {
        return None;
    };
    // The text is the number's own if formatting the number returns the same text.
    let mut buffer = Buffer::new();
    if buffer.format(number).as_bytes() == text {
        Some(number)
    } else {
        None
    }
}

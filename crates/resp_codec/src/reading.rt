//! Reading the parts of a request from the front of bytes.
ghost use Rattle.std.specs.Prelude.{◌≡◌, ◌+◌, ◌-◌, ◌*◌, ◌&&◌, nat_lt, nat_le, if◌then◌else◌};
ghost use Rattle.kv_types.specs.Reader.{Gives};
ghost use Rattle.kv_types.specs.Reading.{is_digit, after_byte, number_from, number_at, after_dollar, payload_at};
ghost use Rattle.resp_codec.specs.Lines.{line_at};

use kv_types::{ProtocolFault, REQUEST_LIMITS, Stop};

/// A line of a request that holds a number.
#[derive(Clone, Copy, Debug, PartialEq, Eq)]
pub(crate) enum Line {
    /// How many words the request has.
    Count,
    /// How many bytes its next word has.
    Length,
}

/// What follows a first byte, which must be `expected`.
pub(crate) fn after_byte(
    bytes: &[u8],
    expected: u8,
    fault: ProtocolFault,
) -> Result<&[u8], Stop<ProtocolFault>>
    ensures { Gives (λ rest. rest.now) result (after_byte expected fault bytes.now) }
{
    match bytes.split_first() {
        None => Err(Stop::Short),
        Some((byte, rest)) => {
            if *byte == expected {
                Ok(rest)
            } else {
                Err(Stop::Broken(fault))
            }
        }
    }
}

/// The value of a decimal digit.
fn digit(byte: u8) -> Option<u64>
    ensures { result ≡ (if is_digit byte then Some (byte - 48) else None) }
{
    if byte.is_ascii_digit() {
        Some(u64::from(byte - b'0'))
    } else {
        None
    }
}

/// The number `n` with one more digit, at most `most`. Only the number 0 begins with the digit 0.
fn longer(n: u64, byte: u8, most: u64) -> Option<u64>
    ensures { result ≡ (if is_digit byte && nat_lt 0 n && nat_le (10 * n + (byte - 48)) most
        then Some (10 * n + (byte - 48)) else None) }
{
    let digit = digit(byte)?;
    let number = n.checked_mul(10)?.checked_add(digit)?;
    if n > 0 && number <= most {
        Some(number)
    } else {
        None
    }
}

/// The number whose digits so far make `n`, read on through its line end: at most `most`.
fn number_from(
    bytes: &[u8],
    n: u64,
    most: u64,
    fault: ProtocolFault,
) -> Result<(u64, &[u8]), Stop<ProtocolFault>>
    ensures { Gives (λ x. (x.0, x.1.now)) result (number_from most fault n bytes.now) }
{
    let mut number = n;
    let mut rest = bytes;
    while let Some((byte, after)) = rest.split_first() {
        if *byte == b'\r' {
            return Ok((number, after_byte(after, b'\n', fault)?));
        }
        match longer(number, *byte, most) {
            Some(more) => number = more,
            None => return Err(Stop::Broken(fault)),
        }
        rest = after;
    }
    Err(Stop::Short)
}

/// A number of at most `most` and its line end.
pub(crate) fn number_at(
    bytes: &[u8],
    most: u64,
    fault: ProtocolFault,
) -> Result<(u64, &[u8]), Stop<ProtocolFault>>
    ensures { Gives (λ x. (x.0, x.1.now)) result (number_at most fault bytes.now) }
{
    match bytes.split_first() {
        None => Err(Stop::Short),
        Some((byte, rest)) => match digit(*byte) {
            Some(n) if n <= most => number_from(rest, n, most, fault),
            _ => Err(Stop::Broken(fault)),
        },
    }
}

/// What follows the `$` of a word.
fn after_dollar(bytes: &[u8]) -> Result<&[u8], Stop<ProtocolFault>>
    ensures { Gives (λ rest. rest.now) result (after_dollar bytes.now) }
{
    match bytes.split_first() {
        None => Err(Stop::Short),
        Some((byte, rest)) => {
            if *byte == b'$' {
                Ok(rest)
            } else {
                Err(Stop::Broken(ProtocolFault::ExpectedBulk(*byte)))
            }
        }
    }
}

/// A word of `len` bytes and its line end.
pub(crate) fn payload_at(bytes: &[u8], len: u64) -> Result<(&[u8], &[u8]), Stop<ProtocolFault>>
    ensures { Gives (λ x. (x.0.now, x.1.now)) result (payload_at len bytes.now) }
{
    let len = len as usize;
    if bytes.len() < len {
        return Err(Stop::Short);
    }
    let (word, rest) = bytes.split_at(len);
    let rest = after_byte(rest, b'\r', ProtocolFault::ExpectedLineEnd)?;
    let rest = after_byte(rest, b'\n', ProtocolFault::ExpectedLineEnd)?;
    Ok((word, rest))
}

/// The number of a line, and what follows the line.
pub(crate) fn line_at(bytes: &[u8], line: Line) -> Result<(u64, &[u8]), Stop<ProtocolFault>>
    ensures { Gives (λ x. (x.0, x.1.now)) result (line_at line bytes.now) }
{
    match line {
        Line::Count => {
            let rest = after_byte(bytes, b'*', ProtocolFault::ExpectedArray)?;
            number_at(
                rest,
                REQUEST_LIMITS.words,
                ProtocolFault::InvalidMultibulkLength,
            )
        }
        Line::Length => {
            let rest = after_dollar(bytes)?;
            number_at(
                rest,
                REQUEST_LIMITS.word_bytes,
                ProtocolFault::InvalidBulkLength,
            )
        }
    }
}

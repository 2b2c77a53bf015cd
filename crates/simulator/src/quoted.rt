//! Bytes as they are printed.
use std::fmt;

/// Bytes between quotes: printable ASCII as it is, except `\"` and `\\`; then `\r`, `\n`, `\t`, and `\x` and two hex digits for any other.
#[derive(Clone, Copy)]
pub struct Quoted<'a>(pub &'a [u8]);

impl fmt::Display for Quoted<'_> {
    fn fmt<W: fmt::Write>(&self, f: &mut fmt::Formatter<W>) -> fmt::Result {
        f.write_char('"')?;
        for byte in self.0 {
            write_byte(f, *byte)?;
        }
        f.write_char('"')
    }
}

fn write_byte<W: fmt::Write>(f: &mut fmt::Formatter<W>, byte: u8) -> fmt::Result {
    match byte {
        b'"' => f.write_str("\\\""),
        b'\\' => f.write_str("\\\\"),
        b'\r' => f.write_str("\\r"),
        b'\n' => f.write_str("\\n"),
        b'\t' => f.write_str("\\t"),
        0x20..=0x7e => f.write_char(char::from(byte)),
        _ => write!(f, "\\x{byte:02x}"),
    }
}

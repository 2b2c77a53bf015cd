//! What a person at a terminal is asked before something is lost.
ghost use Rattle.std.specs.Prelude.{◌≡◌, true, false};
ghost use Rattle.std.specs.Io.KnownBytes.{Consumes};
ghost use Rattle.images.specs.Asked.{yes_line};

use std::io::{Read, Write};

/// How much is read at once of what a person types. A terminal gives a line at a time.
const LINE_BYTES: usize = 64;

/// Whether what was told of may be lost. Where a person is asked, just a typed `yes` says so.
pub fn may_lose<R: Read, W: Write>(is_asked: bool, reader: &mut R, errors: &mut W) -> bool
    ensures asked { is_asked ≡ true → result ≡ true → Consumes (R.remaining reader.old) (R.remaining reader.new) yes_line }
    ensures unasked { is_asked ≡ false → (result ≡ true) × (reader.new ≡ reader.old) }
{
    if !is_asked {
        return true;
    }
    let _ = errors.write_all(b"type yes to go on: ");
    has_typed_yes(reader)
}

/// Whether the next line is `yes`.
fn has_typed_yes<R: Read>(reader: &mut R) -> bool
    ensures { result ≡ true → Consumes (R.remaining reader.old) (R.remaining reader.new) yes_line }
{
    let mut line = [0; LINE_BYTES];
    match reader.read(&mut line) {
        Ok(count) => &line[..count] == b"yes\n".as_slice(),
        Err(_) => false,
    }
}

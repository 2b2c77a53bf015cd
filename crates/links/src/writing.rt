//! Writing to the other node.
ghost use Rattle.std.specs.Prelude.{◌≡◌, ℕ, ◌≤◌, List, [], ◌++◌, length, take, OnErr, OnOk, IfErr, IfOk};
ghost use Rattle.std.specs.Io.KnownBytes.{Appends};
ghost use Rattle.node_log.specs.declared.log.Lost.TheVariants.{Unwritten};

use node_log::Lost;
use std::io::{self, ErrorKind, Write};

/// How many bytes of room are kept between two writes, at most.
const MOST_KEPT_BYTES: usize = 262_144;

/// Writes what was put, and empties it. Room for a long frame, or a delta, is given up then, and not kept for as long as the link lives.
///
/// # Errors
///
/// Only `Unwritten`. The beginning of what was put may have been written.
pub(crate) fn write_put<O: Write>(to: &mut O, out: &mut Vec<u8>) -> Result<(), Lost>
    ensures written { OnOk result (Appends (O.contents to.old) (O.contents to.new) out.old.items) }
    ensures begun { (part : List ℕ) × (rest : List ℕ) × (out.old.items ≡ part ++ rest) × Appends (O.contents to.old) (O.contents to.new) part }
    ensures emptied { out.new.items ≡ [] }
    ensures cause { IfErr result (λ why. why ≡ Unwritten) }
{
    let written = write_whole(to, out);
    out.clear();
    out.shrink_to(MOST_KEPT_BYTES);
    match written {
        Ok(()) => Ok(()),
        Err(_) => Err(Lost::Unwritten),
    }
}

/// Writes these bytes.
///
/// # Errors
///
/// Those of `write_some`. The beginning of the bytes may have been written, and nothing else.
pub(crate) fn write_whole<O: Write>(to: &mut O, bytes: &[u8]) -> io::Result<()>
    ensures written { OnOk result (Appends (O.contents to.old) (O.contents to.new) bytes.now) }
    ensures begun { (part : List ℕ) × (rest : List ℕ) × (bytes.now ≡ part ++ rest) × Appends (O.contents to.old) (O.contents to.new) part }
{
    let mut rest = bytes;
    for _ in 0..u64::MAX {
        if rest.is_empty() {
            return Ok(());
        }
        let count = write_some(to, rest)?;
        rest = &rest[count..];
    }
    Err(io::Error::from(ErrorKind::TimedOut))
}

/// Writes the beginning of these bytes, or nothing where the call was interrupted. Answers how many were written.
///
/// # Errors
///
/// That of the writer, or `WriteZero` where it takes nothing. Nothing was written.
fn write_some<O: Write>(to: &mut O, bytes: &[u8]) -> io::Result<usize>
    ensures some { IfOk result (λ count. (count ≤ length bytes.now) × Appends (O.contents to.old) (O.contents to.new) (take count bytes.now)) }
    ensures none { OnErr result (Appends (O.contents to.old) (O.contents to.new) []) }
{
    match to.write(bytes) {
        Ok(0) => Err(io::Error::from(ErrorKind::WriteZero)),
        Err(error) if error.kind() == ErrorKind::Interrupted => Ok(0),
        other => other,
    }
}

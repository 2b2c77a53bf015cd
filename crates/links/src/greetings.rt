//! The greetings of a link, of which each side says one before anything else.
ghost use Rattle.std.specs.Prelude.{◌≡◌, IfErr, IfOk};
ghost use Rattle.greeting.specs.Greeting.{MayLink, greeting_text};
ghost use Rattle.links.specs.Greeting.{Greets, IsUnmet, IsWhyNot};

use crate::writing::write_whole;
use greeting::{GREETING_BYTES, Greeting, judge};
use kv_types::Refusal;
use node_log::{LinkError, Lost};
use std::io::{Read, Write};

/// Why two nodes did not greet each other.
#[derive(Clone, Copy, Debug, PartialEq, Eq)]
pub(crate) enum Unmet {
    /// A write failed.
    Unwritten,
    /// The connection ended, or a read failed, before a whole greeting came.
    Silent,
    /// The two may not link.
    Refused(Refusal),
}

impl Unmet {
    /// Why a primary has no link.
    pub(crate) fn lost(self) -> Lost {
        match self {
            Unmet::Unwritten => Lost::Unwritten,
            Unmet::Silent => Lost::Silent,
            Unmet::Refused(refusal) => Lost::Refused(refusal),
        }
    }

    /// How a standby's link has ended.
    pub(crate) fn end(self) -> LinkError {
        match self {
            Unmet::Unwritten | Unmet::Silent => LinkError::Closed,
            Unmet::Refused(refusal) => LinkError::Refused(refusal),
        }
    }
}

/// Says the own greeting, reads the other side's in as many pieces as it comes, and judges it. Answers it where the two may link. A read that a signal
/// interrupted is made again.
///
/// # Errors
///
/// `Unwritten` where a write failed: the beginning of the greeting may have been written, and nothing was read. `Silent` where no whole greeting came, or a
/// read failed. `Refused` by `WrongLink` where what came is no greeting, or one of another version, and by `WrongPair` where it is one of another pair.
pub(crate) fn greet<I: Read, O: Write>(
    own: &Greeting,
    from: &mut I,
    to: &mut O,
) -> Result<Greeting, Unmet>
    ensures greets { IfOk result (λ theirs. Greets own.now theirs (I.remaining from.old) (I.remaining from.new) (O.contents to.old) (O.contents to.new)) }
    ensures unmet { IfErr result (λ why. IsUnmet own.now why (I.remaining from.old) (I.remaining from.new) (O.contents to.old) (O.contents to.new)) }
{
    let text = own.to_bytes();
    match write_whole(to, &text) {
        Ok(()) => {}
        Err(_) => return Err(Unmet::Unwritten),
    }
    let mut bytes = [0; GREETING_BYTES];
    match from.read_exact(&mut bytes) {
        Ok(()) => {}
        Err(_) => return Err(Unmet::Silent),
    }
    match met(own, &bytes) {
        Ok(theirs) => Ok(theirs),
        Err(refusal) => Err(Unmet::Refused(refusal)),
    }
}

/// The greeting whose bytes these are, where a node of the own one links with one that said it.
///
/// # Errors
///
/// `WrongLink` where they are those of no greeting, or of one of another version; `WrongPair` where they are those of one of another pair.
fn met(own: &Greeting, bytes: &[u8; GREETING_BYTES]) -> Result<Greeting, Refusal>
    ensures met { IfOk result (λ theirs. (bytes.now ≡ greeting_text theirs) × MayLink own.now theirs) }
    ensures why { IfErr result (λ refusal. IsWhyNot own.now bytes.now refusal) }
{
    let theirs = Greeting::read(bytes)?;
    judge(own, &theirs)?;
    Ok(theirs)
}

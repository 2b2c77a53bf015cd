//! Why the program did not do what it was asked, and what it tells of that.
ghost use Rattle.std.specs.Prelude.{◌≡◌, ◌<◌, IfSome, OnOk};
ghost use Rattle.std.specs.Io.KnownBytes.{Appends};
ghost use Rattle.images.specs.Told.{IsStatus, below_text, kept_text, refusal_line, status_after, status_of, stop_text};

use crate::serve_error::ServeError;
use clap::error::ErrorKind;
use kv_types::Refusal;
use std::alloc::{AllocError, Global};
use std::io::{self, Write};

/// The status where all was done.
pub const DONE: u8 = 0;

/// The status where what was asked was not done, or not all of it, and will not be by the same words.
const FAILED: u8 = 1;

/// The status if the command line is not understood.
const MISUSED: u8 = 2;

/// The status where all was kept as it was, since something would have been lost.
const KEPT: u8 = 3;

/// The status where what was asked was not done, and may be if it is asked again: `EX_TEMPFAIL` of `sysexits.h`.
const PASSING: u8 = 75;

/// Why the program did not do what it was asked.
#[derive(Debug, Drop)]
pub enum Failure {
    /// The command line is none of this program's. Nothing was done.
    Misused(clap::Error),
    /// Nobody can connect at the address that the program was to listen at. That may pass, as where another process has it.
    CannotListen { may_pass: bool },
    /// A call over an image was refused so, since another process has it open.
    Held(Refusal),
    /// A call was refused, or standard input or output failed.
    Stopped(ServeError),
    /// An image changed each time that it was read, as another process has it open. Nothing was printed of it.
    InUse,
    /// What was asked would have lost something. Nothing was changed.
    Kept(Kept),
}

/// Why all is kept as it was.
#[derive(Clone, Copy, Debug, PartialEq, Eq)]
pub enum Kept {
    /// A new file was asked for, and the file is there.
    IsThere,
    /// The image is at this position, and was to be at least at another.
    Below { position: u64, at_least: u64 },
    /// Who was asked did not answer `yes`.
    NotConfirmed,
}

impl From<ServeError> for Failure {
    ghost use Rattle.std.specs.Prelude.{◌≡◌};
    ghost use Rattle.images.specs.declared.failure.Failure.TheVariants.{Stopped};

    ghost from_gives = { λ error failure. failure ≡ Stopped error };

    fn from(error: ServeError) -> Failure {
        Failure::Stopped(error)
    }
}

impl From<Refusal> for Failure {
    ghost use Rattle.std.specs.Prelude.{◌≡◌};
    ghost use Rattle.images.specs.declared.serve_error.ServeError.TheVariants.{Refused};
    ghost use Rattle.images.specs.declared.failure.Failure.TheVariants.{Stopped};

    ghost from_gives = { λ refusal failure. failure ≡ Stopped (Refused refusal) };

    fn from(refusal: Refusal) -> Failure {
        Failure::Stopped(ServeError::Refused(refusal))
    }
}

impl From<AllocError> for Failure {
    ghost use Rattle.std.specs.Prelude.{◌≡◌};
    ghost use Rattle.kv_types.specs.declared.refusal.Refusal.TheVariants.{Memory};
    ghost use Rattle.images.specs.declared.serve_error.ServeError.TheVariants.{Refused};
    ghost use Rattle.images.specs.declared.failure.Failure.TheVariants.{Stopped};

    ghost from_gives = { λ _ failure. failure ≡ Stopped (Refused Memory) };

    fn from(error: AllocError) -> Failure {
        Failure::from(Refusal::from(error))
    }
}

impl From<clap::Error> for Failure {
    fn from(error: clap::Error) -> Failure {
        if error.kind() == ErrorKind::OutOfMemory {
            Failure::Stopped(ServeError::Refused(Refusal::Memory))
        } else {
            Failure::Misused(error)
        }
    }
}

impl Failure {
    ghost use Rattle.std.specs.Prelude.{◌≡◌, ◌<◌, ◌≤◌, IfSome, OnOk};
    ghost use Rattle.std.specs.Io.KnownBytes.{Appends};
    ghost use Rattle.images.specs.Told.{IsStatus, status_after, text_of, while_held};

    /// The status that the program ends with.
    pub fn status(&self) -> u8
        ensures status { result ≡ status_after self.now }
        ensures failed { 0 < result }
        ensures known { IsStatus result }
    {
        match self {
            Failure::Misused(_) => MISUSED,
            Failure::CannotListen { may_pass: false } => FAILED,
            Failure::CannotListen { may_pass: true } | Failure::Held(_) | Failure::InUse => PASSING,
            Failure::Stopped(error) => status_of(error),
            Failure::Kept(_) => KEPT,
        }
    }

    /// The same, of a call over an image that another process has open, if it has.
    pub fn while_held(self, is_held: bool) -> Failure
        ensures { result ≡ while_held is_held self }
    {
        match self {
            Failure::Stopped(ServeError::Refused(refusal)) if is_held => Failure::Held(refusal),
            failure => failure,
        }
    }

    /// Tells whoever started the program, by one write, so that no line of another thread stands inside. Without memory for that it is told piece by piece.
    pub fn tell_at_once<W: Write>(&self, alloc: Global, errors: &mut W) -> io::Result<()>
        ensures { OnOk result (IfSome (text_of self.now) (Appends (W.contents errors.old) (W.contents errors.new))) }
    {
        let mut text = Vec::new(alloc);
        match self.tell(&mut text) {
            Ok(()) => errors.write_all(&text),
            Err(_) => self.tell(errors),
        }
    }

    /// Tells whoever started the program.
    pub fn tell<W: Write>(&self, errors: &mut W) -> io::Result<()>
        ensures { OnOk result (IfSome (text_of self.now) (Appends (W.contents errors.old) (W.contents errors.new))) }
    {
        match self {
            // (its text ends its last line itself)
            Failure::Misused(error) => write!(errors, "{error}"),
            Failure::CannotListen { .. } => writeln!(errors, "cannot listen"),
            Failure::Held(refusal) => tell_refusal(*refusal, errors),
            Failure::Stopped(error) => tell_stop(error, errors),
            Failure::InUse => writeln!(errors, "in use"),
            Failure::Kept(kept) => tell_kept(*kept, errors),
        }
    }
}

/// Tells what went wrong, and returns the exit status. Where even that cannot be written, the status has to do.
pub fn tell<E: Write>(alloc: Global, failure: &Failure, errors: &mut E) -> u8
    ensures status { result ≡ status_after failure.now }
    ensures failed { 0 < result }
    ensures known { IsStatus result }
{
    let _ = failure.tell_at_once(alloc, errors);
    failure.status()
}

/// Tells why all is kept as it was.
fn tell_kept<W: Write>(kept: Kept, errors: &mut W) -> io::Result<()>
    ensures { OnOk result (Appends (W.contents errors.old) (W.contents errors.new) (kept_text kept)) }
{
    match kept {
        Kept::IsThere => writeln!(errors, "not formatted: the file is there"),
        Kept::Below { position, at_least } => tell_below(position, at_least, errors),
        Kept::NotConfirmed => writeln!(errors, "nothing was changed"),
    }
}

fn tell_below<W: Write>(at: u64, least: u64, errors: &mut W) -> io::Result<()>
    ensures { OnOk result (Appends (W.contents errors.old) (W.contents errors.new) (below_text at least)) }
{
    writeln!(errors, "position {at}, below {least}: not promoted")
}

/// Tells of a refusal, with its number.
fn tell_refusal<W: Write>(refusal: Refusal, errors: &mut W) -> io::Result<()>
    ensures { OnOk result (Appends (W.contents errors.old) (W.contents errors.new) (refusal_line refusal)) }
{
    let number = refusal.number();
    writeln!(errors, "refusal {number}: {refusal}")
}

/// The status after a call ended early so. Memory that was refused may be there another time.
fn status_of(error: &ServeError) -> u8
    ensures { result ≡ status_of error.now }
{
    match error {
        ServeError::Refused(Refusal::Memory) => PASSING,
        _ => FAILED,
    }
}

/// Tells why a call ended early.
fn tell_stop<W: Write>(error: &ServeError, errors: &mut W) -> io::Result<()>
    ensures { OnOk result (IfSome (stop_text error.now) (Appends (W.contents errors.old) (W.contents errors.new))) }
{
    match error {
        ServeError::Refused(refusal) => tell_refusal(*refusal, errors),
        ServeError::Broken => writeln!(errors, "broken connection"),
        _ => writeln!(errors, "{error}"),
    }
}

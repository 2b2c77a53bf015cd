//! Why the program did not do what it was asked, and what it tells of that.
ghost use Rattle.std.specs.Prelude.{OnOk};
ghost use Rattle.std.specs.Io.KnownBytes.{Appends};
ghost use Rattle.client.specs.Told.{refusal_line, unreached_line};

use crate::exchange;
use clap::error::ErrorKind;
use kv_types::Refusal;
use std::alloc::AllocError;
use std::io::{self, Write};

/// The status where a reply was an error, or no reply came and none will by the same words, or not every one was printed.
pub const FAILED: u8 = 1;

/// The status if the command line is not understood.
const MISUSED: u8 = 2;

/// The status where no reply came, and one may if it is asked for again: `EX_TEMPFAIL` of `sysexits.h`.
const PASSING: u8 = 75;

/// Why the program did not do what it was asked.
#[derive(Debug, Drop)]
pub enum Failure {
    /// The command line is none of this program's. Nothing was done.
    Misused(clap::Error),
    /// There was no connection.
    Unreached(Unreached),
    /// The connection broke.
    Broken,
    /// What came over it is no reply.
    NoReply,
    /// Memory was refused.
    Memory,
    /// Standard input could not be read.
    Read(io::Error),
    /// Standard output could not be written.
    Write(io::Error),
}

/// Why there was no connection.
#[derive(Clone, Copy, Debug, PartialEq, Eq)]
pub enum Unreached {
    /// Nobody takes one there.
    Nobody,
    /// The name of the host leads to no address, or not now.
    Name,
    /// This process, or the system, has no descriptor left.
    Descriptor,
}

impl From<clap::Error> for Failure {
    fn from(error: clap::Error) -> Failure {
        if error.kind() == ErrorKind::OutOfMemory {
            Failure::Memory
        } else {
            Failure::Misused(error)
        }
    }
}

impl From<AllocError> for Failure {
    ghost use Rattle.std.specs.Prelude.{◌≡◌};
    ghost use Rattle.client.specs.declared.failure.Failure.TheVariants.{Memory};

    ghost from_gives = { λ _ failure. failure ≡ Memory };

    fn from(_error: AllocError) -> Failure {
        Failure::Memory
    }
}

impl From<exchange::Broken> for Failure {
    fn from(broken: exchange::Broken) -> Failure {
        match broken {
            exchange::Broken::Memory => Failure::Memory,
            exchange::Broken::NoReply => Failure::NoReply,
            exchange::Broken::Failed(_) | exchange::Broken::Closed => Failure::Broken,
        }
    }
}

impl Failure {
    ghost use Rattle.std.specs.Prelude.{◌≡◌, ◌<◌, ◌≤◌, IfSome, OnOk};
    ghost use Rattle.std.specs.Io.KnownBytes.{Appends};
    ghost use Rattle.client.specs.Told.{IsStatus, status_after, told_of};

    /// The status that the program ends with.
    pub fn status(&self) -> u8
        ensures status { result ≡ status_after self.now }
        ensures failed { 0 < result }
        ensures known { IsStatus result }
    {
        match self {
            Failure::Misused(_) => MISUSED,
            Failure::Unreached(_) | Failure::Broken | Failure::Memory => PASSING,
            Failure::NoReply | Failure::Read(_) | Failure::Write(_) => FAILED,
        }
    }

    /// Tells whoever started the program.
    pub fn tell<E: Write>(&self, errors: &mut E) -> io::Result<()>
        ensures { OnOk result (IfSome (told_of self.now) (Appends (E.contents errors.old) (E.contents errors.new))) }
    {
        match self {
            // (its text ends its last line itself)
            Failure::Misused(error) => write!(errors, "{error}"),
            Failure::Unreached(why) => tell_unreached(*why, errors),
            Failure::Broken => writeln!(errors, "broken connection"),
            Failure::NoReply => writeln!(errors, "what came is no reply"),
            Failure::Memory => tell_refusal(Refusal::Memory, errors),
            Failure::Read(error) => writeln!(errors, "reading failed: {error}"),
            Failure::Write(error) => writeln!(errors, "writing failed: {error}"),
        }
    }
}

/// Tells why there was no connection.
fn tell_unreached<E: Write>(why: Unreached, errors: &mut E) -> io::Result<()>
    ensures { OnOk result (Appends (E.contents errors.old) (E.contents errors.new) (unreached_line why)) }
{
    match why {
        Unreached::Nobody => writeln!(errors, "no connection: nobody takes one there"),
        Unreached::Name => writeln!(
            errors,
            "no connection: the name of the host does not resolve"
        ),
        Unreached::Descriptor => writeln!(errors, "no connection: no descriptor is left"),
    }
}

/// Tells of a refusal, with its number.
fn tell_refusal<E: Write>(refusal: Refusal, errors: &mut E) -> io::Result<()>
    ensures { OnOk result (Appends (E.contents errors.old) (E.contents errors.new) (refusal_line refusal)) }
{
    let number = refusal.number();
    writeln!(errors, "refusal {number}: {refusal}")
}

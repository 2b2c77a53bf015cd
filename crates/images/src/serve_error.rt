//! Why serving ended early.

use kv_types::Refusal;
use std::alloc::{AllocError, AllocFailed};
use std::error::Error;
use std::{fmt, io};

/// Why serving ended early.
#[derive(Debug, Drop)]
pub enum ServeError {
    /// The requests could not be read to their end. Nothing was written.
    Read(io::Error),
    /// There were no random numbers for the hashes, or for the number of a pair. Nothing was read or written.
    Random(io::Error),
    /// A call was refused, or a node has stopped. Nothing was written.
    Refused(Refusal),
    /// A socket between the threads failed. Nothing was written.
    Socket(io::Error),
    /// A connection between the threads ended too early: a socket failed, or memory, a thread or a descriptor was refused to one of its ends. Nothing was
    /// written.
    Broken,
    /// The replies could not be written, or not all of them.
    Write(io::Error),
}

impl fmt::Display for ServeError {
    fn fmt<W: fmt::Write>(&self, f: &mut fmt::Formatter<W>) -> fmt::Result {
        match self {
            ServeError::Read(error) => write!(f, "reading failed: {error}"),
            ServeError::Random(error) => write!(f, "no random numbers: {error}"),
            ServeError::Refused(refusal) => {
                let number = refusal.number();
                write!(f, "refusal {number}: {refusal}")
            }
            ServeError::Socket(error) => write!(f, "a socket failed: {error}"),
            ServeError::Broken => f.write_str("broken connection"),
            ServeError::Write(error) => write!(f, "writing failed: {error}"),
        }
    }
}

impl Error for ServeError {}

impl From<Refusal> for ServeError {
    ghost use Rattle.std.specs.Prelude.{◌≡◌};
    ghost use Rattle.images.specs.declared.serve_error.ServeError.TheVariants.{Refused};

    ghost from_gives = { λ refusal error. error ≡ Refused refusal };

    fn from(refusal: Refusal) -> ServeError {
        ServeError::Refused(refusal)
    }
}

impl From<AllocError> for ServeError {
    ghost use Rattle.std.specs.Prelude.{◌≡◌};
    ghost use Rattle.kv_types.specs.declared.refusal.Refusal.TheVariants.{Memory};
    ghost use Rattle.images.specs.declared.serve_error.ServeError.TheVariants.{Refused};

    ghost from_gives = { λ _ error. error ≡ Refused Memory };

    fn from(e: AllocError) -> ServeError {
        ServeError::Refused(Refusal::from(e))
    }
}

impl<T: Drop> From<AllocFailed<T>> for ServeError {
    ghost use Rattle.std.specs.Prelude.{◌≡◌};
    ghost use Rattle.kv_types.specs.declared.refusal.Refusal.TheVariants.{Memory};
    ghost use Rattle.images.specs.declared.serve_error.ServeError.TheVariants.{Refused};

    ghost from_gives = { λ _ error. error ≡ Refused Memory };

    fn from(e: AllocFailed<T>) -> ServeError {
        ServeError::Refused(Refusal::from(e))
    }
}

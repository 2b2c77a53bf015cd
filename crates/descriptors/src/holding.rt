//! What stands for the standard streams that are closed.
ghost use Rattle.std.specs.Prelude.{◌≡◌, ℤ, pos, IfOk, IfSome};
ghost use Rattle.std.specs.Fd.{file_raw_fd};
ghost use Rattle.descriptors.specs.Holding.{HoldsOnly};

use std::error::Error;
use std::fs::{File, Files, OpenOptions};
use std::os::fd::{AsRawFd, RawFd};
use std::{fmt, io};

/// The file that is opened for a stream that is closed.
const NULL_DEVICE: &str = "/dev/null";

const STANDARD_INPUT: RawFd = 0;

const STANDARD_OUTPUT: RawFd = 1;

const STANDARD_ERROR: RawFd = 2;

/// The numbers of the standard streams that were closed. While they are held no other file and no socket gets them. Each is open the wrong way: what
/// stands for standard input cannot be read, and what stands for the others cannot be written, as where nothing is open.
#[derive(Drop)]
pub struct Held {
    input: Option<File>,
    output: Option<File>,
    errors: Option<File>,
}

/// The null device could not be opened.
#[derive(Debug, Drop)]
pub struct NoNullDevice {
    cause: io::Error,
}

impl fmt::Display for NoNullDevice {
    fn fmt<W: fmt::Write>(&self, f: &mut fmt::Formatter<W>) -> fmt::Result {
        let cause = &self.cause;
        write!(f, "cannot open {NULL_DEVICE}: {cause}")
    }
}

impl Error for NoNullDevice {}

impl From<io::Error> for NoNullDevice {
    fn from(cause: io::Error) -> NoNullDevice {
        NoNullDevice { cause }
    }
}

impl From<NoNullDevice> for io::Error {
    fn from(error: NoNullDevice) -> io::Error {
        error.cause
    }
}

/// Holds the number of each standard stream that is closed, and no other. A program calls it before it opens anything: a system gives each new descriptor
/// the lowest free number, so what is opened next could be written over by what is told there.
///
/// # Errors
///
/// Where the null device cannot be opened. Nothing is held then.
pub fn hold_closed<R: Files<File = File>>(files: &R) -> Result<Held, NoNullDevice>
    ensures { IfOk result HoldsOnly }
{
    let mut to_write = OpenOptions::new();
    to_write.write(true);
    let mut to_read = OpenOptions::new();
    to_read.read(true);
    // From the lowest on, since each fills the lowest number that is free.
    let input = hold(files, &to_write, STANDARD_INPUT)?;
    let output = hold(files, &to_read, STANDARD_OUTPUT)?;
    let errors = hold(files, &to_read, STANDARD_ERROR)?;
    Ok(Held {
        input,
        output,
        errors,
    })
}

/// Opens the null device, and keeps it where it got this number.
fn hold<R: Files<File = File>>(
    files: &R,
    how: &OpenOptions,
    number: RawFd,
) -> io::Result<Option<File>>
    ensures { IfOk result (λ held. IfSome held (λ file. file_raw_fd file ≡ number)) }
{
    let file = how.open(files, NULL_DEVICE)?;
    if file.as_raw_fd() == number {
        Ok(Some(file))
    } else {
        Ok(None)
    }
}

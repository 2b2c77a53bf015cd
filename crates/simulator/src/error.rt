//! Why the simulator ended without a whole report.
use crate::cause::{Cause, LineError};
use std::alloc::{AllocError, AllocFailed};
use std::error::Error;
use std::io::ErrorKind;
use std::{fmt, io};

const USAGE: &str = "usage: wbl-sim [--lines N,N] [--list | --whole] [--map] [--images] < EVENTS
       wbl-sim [--lines N,N] --trace < EVENTS
       wbl-sim [--trace] --explore SEED EVENTS";

/// The exit status if the command line or a line of the events is not understood.
const MISUSED: u8 = 2;

/// The exit status if the simulator itself failed, or a history broke the promise.
const FAILED: u8 = 1;

/// Why the simulator ended without a whole report. Except for `Write` and `Memory`, nothing was printed.
#[derive(Debug, Drop)]
pub enum SimulatorError {
    /// The command line is not understood.
    Usage,
    /// The line with this number, counted from 1, is not understood. Nothing was played.
    Line(u64, Cause),
    /// The events could not be read to their end.
    Read(io::Error),
    /// There were no random numbers for the hashes. Nothing was played.
    Random(io::Error),
    /// Memory was refused to the simulator.
    Memory,
    /// The report could not be written, or not all of it.
    Write(io::Error),
    /// A history breaks the promise. It was printed.
    Broken,
}

impl SimulatorError {
    /// The program's exit status.
    pub fn status(&self) -> u8 {
        match self {
            SimulatorError::Usage | SimulatorError::Line(_, _) => MISUSED,
            SimulatorError::Read(_)
            | SimulatorError::Random(_)
            | SimulatorError::Memory
            | SimulatorError::Write(_)
            | SimulatorError::Broken => FAILED,
        }
    }

    /// The error for the line with this number.
    pub fn at_line(number: u64, error: LineError) -> SimulatorError {
        match error {
            LineError::Memory => SimulatorError::Memory,
            LineError::Bad(cause) => SimulatorError::Line(number, cause),
        }
    }
}

impl fmt::Display for SimulatorError {
    fn fmt<W: fmt::Write>(&self, f: &mut fmt::Formatter<W>) -> fmt::Result {
        match self {
            SimulatorError::Usage => f.write_str(USAGE),
            SimulatorError::Line(number, cause) => write!(f, "line {number}: {cause}"),
            SimulatorError::Read(error) => write!(f, "reading failed: {error}"),
            SimulatorError::Random(error) => write!(f, "no random numbers: {error}"),
            SimulatorError::Memory => f.write_str("out of memory"),
            SimulatorError::Write(error) => write!(f, "writing failed: {error}"),
            SimulatorError::Broken => f.write_str("a history breaks the promise"),
        }
    }
}

impl Error for SimulatorError {}

impl From<AllocError> for SimulatorError {
    fn from(_e: AllocError) -> SimulatorError {
        SimulatorError::Memory
    }
}

impl<T: Drop> From<AllocFailed<T>> for SimulatorError {
    fn from(_e: AllocFailed<T>) -> SimulatorError {
        SimulatorError::Memory
    }
}

impl From<io::Error> for SimulatorError {
    fn from(error: io::Error) -> SimulatorError {
        if error.kind() == ErrorKind::OutOfMemory {
            SimulatorError::Memory
        } else {
            SimulatorError::Write(error)
        }
    }
}

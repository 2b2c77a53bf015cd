//! What was found while a history was looked at.
use crate::breach::Breach;
use crate::error::SimulatorError;
use std::alloc::{AllocError, AllocFailed};

/// What was found, or why nothing more was looked at.
#[derive(Debug, Drop)]
pub enum Found {
    Breach(Breach),
    Failed(SimulatorError),
}

impl From<Breach> for Found {
    fn from(breach: Breach) -> Found {
        Found::Breach(breach)
    }
}

impl From<SimulatorError> for Found {
    fn from(error: SimulatorError) -> Found {
        Found::Failed(error)
    }
}

impl From<AllocError> for Found {
    fn from(_e: AllocError) -> Found {
        Found::Failed(SimulatorError::Memory)
    }
}

impl<T: Drop> From<AllocFailed<T>> for Found {
    fn from(_e: AllocFailed<T>) -> Found {
        Found::Failed(SimulatorError::Memory)
    }
}

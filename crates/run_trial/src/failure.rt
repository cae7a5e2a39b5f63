//! Why a row has no outcome.

use lx_types::NoMemory;
use std::alloc::{AllocError, AllocFailed};

/// Why a row has no outcome. The first two are faults of the rows themselves.
#[derive(Clone, Copy, Drop)]
pub enum Failure {
    /// The modules are no library.
    Library,
    /// The text is no session.
    Session,
    NoMemory,
}

impl From<NoMemory> for Failure {
    fn from(_error: NoMemory) -> Failure {
        Failure::NoMemory
    }
}

impl From<AllocError> for Failure {
    fn from(_error: AllocError) -> Failure {
        Failure::NoMemory
    }
}

impl<T: Drop> From<AllocFailed<T>> for Failure {
    fn from(_error: AllocFailed<T>) -> Failure {
        Failure::NoMemory
    }
}

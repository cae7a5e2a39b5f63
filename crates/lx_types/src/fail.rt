//! Want of memory, apart from what a call refuses.

ghost use Rattle.std.specs.Prelude.{◌≡◌};
ghost use Rattle.lx_types.specs.declared.fail.Fail.TheVariants as fail;

use std::alloc::{AllocError, AllocFailed};

/// A call found no memory. It says nothing of its input.
#[derive(Debug, Clone, Copy, Drop)]
pub struct NoMemory;

/// Why a call that takes memory did not succeed.
#[derive(Clone, Copy, Drop)]
pub enum Fail<R> {
    /// The call refuses its input.
    Said(R),
    /// The call found no memory, before or after a refusal was known.
    NoMemory,
}

impl From<AllocError> for NoMemory {
    fn from(_error: AllocError) -> NoMemory {
        NoMemory
    }
}

impl<T: Drop> From<AllocFailed<T>> for NoMemory {
    fn from(_error: AllocFailed<T>) -> NoMemory {
        NoMemory
    }
}

impl<R> From<NoMemory> for Fail<R> {
    ghost from_gives = { λ _ e. e ≡ fail.NoMemory };

    fn from(_error: NoMemory) -> Fail<R> {
        Fail::NoMemory
    }
}

impl<R> From<AllocError> for Fail<R> {
    ghost from_gives = { λ _ e. e ≡ fail.NoMemory };

    fn from(_error: AllocError) -> Fail<R> {
        Fail::NoMemory
    }
}

impl<T: Drop, R> From<AllocFailed<T>> for Fail<R> {
    ghost from_gives = { λ _ e. e ≡ fail.NoMemory };

    fn from(_error: AllocFailed<T>) -> Fail<R> {
        Fail::NoMemory
    }
}

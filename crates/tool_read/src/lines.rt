//! Refusals of files.
ghost use Rattle.std.specs.Prelude.{◌≡◌};
ghost use Rattle.refusal_text.specs.Refusals.{said_under};
ghost use Rattle.tool_read.specs.Readings.{RefusedSo, Tells};

use lx_types::{Fail, NoMemory};
use refusal_text::{Cause, FileFault, Refused};
use std::alloc::Global;

/// A refusal under the name of a file.
pub fn refusal(alloc: Global, name: &str, cause: Cause) -> Fail<Refused>
    ensures { RefusedSo (λ said. said ≡ said_under name.now cause) result }
{
    match Refused::of(alloc, name, cause) {
        Ok(refused) => Fail::Said(refused),
        Err(NoMemory) => Fail::NoMemory,
    }
}

/// The refusal of a file of these bytes, which has a fault.
pub fn told(alloc: Global, name: &str, bytes: Vec<u8>, why: Fail<FileFault>) -> Fail<Refused>
    ensures { Tells name.now why result }
{
    match why {
        Fail::Said(fault) => refusal(alloc, name, Cause::Faulty { fault, bytes }),
        Fail::NoMemory => Fail::NoMemory,
    }
}

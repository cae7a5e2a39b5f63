//! The answer to a load: the bytes of the file, or why there are none.
ghost use Rattle.std.specs.Prelude.{◌≡◌, ◌≤◌, IfOk, length};
ghost use Rattle.lx_ports.specs.Calls.{load_answer};
ghost use Rattle.answer_model.specs.Loading.{file_limit};
ghost use Rattle.answer_model.specs.Items.{Kind};
ghost use Rattle.tool_read.specs.Readings.{Opens};

use crate::lines::refusal;
use lx_ports::LoadFault;
use lx_types::Fail;
use refusal_text::{Cause, Refused};
use std::alloc::Global;

/// The bytes that a load gave.
pub fn opened(
    alloc: Global,
    name: &str,
    loaded: Result<Vec<u8>, LoadFault>,
) -> Result<Vec<u8>, Fail<Refused>>
    requires { IfOk loaded (λ bytes. length bytes.items ≤ file_limit) }
    ensures opened { (kind : Kind) → Opens kind name.now (load_answer loaded) result }
    ensures short { IfOk result (λ bytes. length bytes.items ≤ file_limit) }
{
    match loaded {
        Ok(bytes) => Ok(bytes),
        Err(LoadFault::Absent) => Err(refusal(alloc, name, Cause::Absent)),
        Err(LoadFault::TooLong) => Err(refusal(alloc, name, Cause::TooLong)),
        Err(LoadFault::Failed) => Err(refusal(alloc, name, Cause::Unreadable)),
        Err(LoadFault::NoMemory) => Err(Fail::NoMemory),
    }
}

//! Files of which it is known that they have no fault.

ghost use Rattle.std.specs.Prelude.{◌≡◌, ◌<◌, ◌^◌, IfOk, length};
ghost use Rattle.lx_model.specs.Module.{IsRead, Lx, parts_of};

use crate::reading::read_module;
use lx_types::{Fail, Module, NoMemory};
use std::alloc::Global;

/// The module of a file that has no fault. It fails only for want of memory.
pub fn read_faultless(alloc: Global, file: Vec<u8>) -> Result<Module, NoMemory>
    requires short { length file.items < 2 ^ 32 }
    requires means { Lx file.items (parts_of file.items) }
    ensures parts { IfOk result (λ parts. parts ≡ parts_of file.items) }
    ensures whole { IfOk result IsRead }
{
    match read_module(alloc, file) {
        Ok(module) => Ok(module),
        Err(unread) => match unread.why {
            Fail::Said(_) => unreachable!(),
            Fail::NoMemory => Err(NoMemory),
        },
    }
}

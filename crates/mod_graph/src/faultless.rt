//! Modules of which it is known that nothing is wrong with them.

ghost use Rattle.std.specs.Prelude.{◌≡◌, ◌≤◌, IfOk, None, All, length};
ghost use Rattle.lx_types.specs.declared.limits.TheConstants.{MAX_MODULES};
ghost use Rattle.lx_model.specs.Gathering.{LibraryFault};
ghost use Rattle.lx_model.specs.Module.{IsRead};

use crate::library::Library;
use lx_types::{Fail, Module, NoMemory};
use std::alloc::Global;

/// The library of modules with which nothing is wrong. It fails only for want of memory.
pub fn gather_faultless(alloc: Global, modules: Vec<Module>) -> Result<Library, NoMemory>
    requires accepted { LibraryFault modules.items ≡ None }
    requires few { length modules.items ≤ MAX_MODULES }
    requires read { All IsRead modules.items }
    ensures { IfOk result (λ library. library ≡ modules.items) }
{
    match Library::gather(alloc, modules) {
        Ok(library) => Ok(library),
        Err(ungathered) => match ungathered.why {
            Fail::Said(_) => unreachable!(),
            Fail::NoMemory => Err(NoMemory),
        },
    }
}

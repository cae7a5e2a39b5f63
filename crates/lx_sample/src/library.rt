//! A library of modules, from their files.

ghost use Rattle.std.specs.Prelude.{◌≡◌, ◌<◌, ◌^◌, All, IfOk, IfSome, length};
ghost use Rattle.lx_model.specs.Module.{IsRead};

use lx_read::read_module;
use lx_types::{Fail, Module, NoMemory};
use mod_graph::Library;
use std::alloc::Global;

// The module that a file is, where it has no fault.
fn module_of(alloc: Global, file: Vec<u8>) -> Result<Option<Module>, NoMemory>
    ensures { IfOk result (λ m. IfSome m IsRead) }
{
    if u32::try_from(file.len()).is_err() {
        return Ok(None);
    }
    match read_module(alloc, file) {
        Ok(module) => Ok(Some(module)),
        Err(unread) => match unread.why {
            Fail::Said(_) => Ok(None),
            Fail::NoMemory => Err(NoMemory),
        },
    }
}

// The modules of files, where none has a fault.
fn modules_of(alloc: Global, files: Vec<Vec<u8>>) -> Result<Option<Vec<Module>>, NoMemory>
    ensures { IfOk result (λ modules. IfSome modules (λ ms. All IsRead ms.items)) }
{
    let mut modules = Vec::new(alloc);
    for file in files {
        match module_of(alloc, file)? {
            Some(module) => modules.push(module)?,
            None => return Ok(None),
        }
    }
    Ok(Some(modules))
}

/// The library of the modules that files are, where they are modules and make one.
pub fn library_of(alloc: Global, files: Vec<Vec<u8>>) -> Result<Option<Library>, NoMemory> {
    let Some(modules) = modules_of(alloc, files)? else {
        return Ok(None);
    };
    if u32::try_from(modules.len()).is_err() {
        return Ok(None);
    }
    match Library::gather(alloc, modules) {
        Ok(library) => Ok(Some(library)),
        Err(ungathered) => match ungathered.why {
            Fail::Said(_) => Ok(None),
            Fail::NoMemory => Err(NoMemory),
        },
    }
}

//! Small modules of one object each, and libraries of them.

ghost use Rattle.std.specs.Prelude.{◌<◌, ◌^◌, All, IfOk, length};
ghost use Rattle.lx_model.specs.Module.{IsRead};

use lx_read::read_module;
use lx_sample::ONE_OBJECT;
use lx_types::{Module, NoMemory};
use mod_graph::Library;
use std::alloc::Global;

/// A module of one object of 8 bytes, which starts at its first byte, with a name of one letter and the modules
/// whose names it imports.
#[derive(Clone, Copy)]
pub struct Shape {
    pub name: u8,
    pub flags: u32,
    pub imports: &'static [u8],
}

/// The file of a module: the library of one object, which starts at its first byte, with import modules at its end.
fn file_of(alloc: Global, shape: &Shape) -> Result<Vec<u8>, NoMemory>
    ensures { IfOk result (λ file. length file.items < 2 ^ 32) }
{
    let imports = u8::try_from(shape.imports.len()).map_err(|_| NoMemory)?;
    let mut file = Vec::from_slice(alloc, &ONE_OBJECT)?;
    for (place, byte) in shape.flags.to_le_bytes().iter().enumerate() {
        if let Some(at) = file.get_mut(0x10 + place) {
            *at = *byte;
        }
    }
    for (place, byte) in [(0x18, 1), (0x70, 0xFF), (0x74, imports), (0xE5, shape.name)] {
        if let Some(at) = file.get_mut(place) {
            *at = byte;
        }
    }
    for name in shape.imports {
        file.push(1)?;
        file.push(*name)?;
    }
    if file.len() < 4096 {
        Ok(file)
    } else {
        Err(NoMemory)
    }
}

/// The module of a shape.
fn module_of(alloc: Global, shape: &Shape) -> Result<Module, NoMemory>
    ensures { IfOk result IsRead }
{
    let file = file_of(alloc, shape)?;
    match read_module(alloc, file) {
        Ok(module) => Ok(module),
        Err(_) => Err(NoMemory),
    }
}

/// The modules of some shapes.
fn modules_of(alloc: Global, shapes: &[Shape]) -> Result<Vec<Module>, NoMemory>
    ensures { IfOk result (λ modules. All IsRead modules.items) }
{
    let mut modules = Vec::new(alloc);
    for shape in shapes {
        modules.push(module_of(alloc, shape)?)?;
    }
    Ok(modules)
}

/// The library of some shapes.
pub fn library_of(alloc: Global, shapes: &[Shape]) -> Result<Library, NoMemory> {
    let modules = modules_of(alloc, shapes)?;
    if modules.len() > 64 {
        return Err(NoMemory);
    }
    match Library::gather(alloc, modules) {
        Ok(library) => Ok(library),
        Err(_) => Err(NoMemory),
    }
}

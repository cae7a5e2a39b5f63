//! From a library to what its first module, and all that it reaches, holds in memory.

ghost use Rattle.std.specs.Prelude.{◌≡◌, ◌<◌, All, IfOk, length};
ghost use Rattle.lx_types.specs.Answers.{Answers};
ghost use Rattle.load_model.specs.Entering.{residence_from};
ghost use Rattle.memory_model.specs.Memory.{IsMemory};
ghost use Rattle.memory_model.specs.Memory as model;
ghost use Rattle.memory_core.specs.Addresses.{AreAddressed};
ghost use Rattle.memory_core.specs.Brought.{IsUnloaded, memory_of, standing};

use crate::bases::bases_seen;
use crate::objects::{Standing, objects_held};
use crate::placing::place;
use load_model::Fresh;
use lx_types::{Fail, NoMemory};
use memory_model::{MemoryRefusal, ModuleMemory};
use mod_graph::Library;
use module_pages::ModulePages;
use page_fix::{OwnLibrary, Steps};
use std::alloc::Global;
use std::marker::Brand;
use std::sync::ledger::{Blank, Ledger};

/// Why the first module of a library is not in memory, and the library.
#[derive(Drop)]
pub struct Unloaded {
    pub why: MemoryRefusal,
    pub library: Library,
}

// What a module holds of those that have begun.
fn module_held<'x, L: Ledger>(
    alloc: Global,
    lib: &'x OwnLibrary,
    fresh: &[Fresh],
    one: &'x Fresh,
    steps: &mut Steps<L>,
) -> Result<ModuleMemory, NoMemory>
    requires { one.now.«module» < length lib.now }
    ensures { IfOk result (λ held. held ≡ model.module_memory lib.now (standing fresh.now) (residence_from one.now)) }
{
    let module = lib.library().module(one.module);
    let bases = bases_seen(alloc, lib.library(), fresh, one.module)?;
    let at = Standing {
        module,
        pages: ModulePages::of(lib, &bases, one.module),
        bases: one.bases.as_slice(),
    };
    Ok(ModuleMemory {
        name: module.name().copied(alloc)?,
        objects: objects_held(alloc, &at, steps)?,
    })
}

// What all that have begun hold, in their order. Nobody counts the record sources.
fn all_held<L: Ledger>(
    alloc: Global,
    lib: &OwnLibrary,
    fresh: &[Fresh],
    blank: Blank,
) -> Result<Vec<ModuleMemory>, NoMemory>
    requires name { blank.name ≡ L.name }
    requires parts { blank.parts ≡ L.parts }
    requires some { 0 < blank.parts }
    requires within { All (λ f. f.«module» < length lib.now) fresh.now }
    ensures { IfOk result (λ held. held.items ≡ memory_of lib.now fresh.now) }
{
    let mut steps = Steps::<L>::of(blank);
    let mut held = Vec::new(alloc);
    for one in fresh {
        held.push(module_held(alloc, lib, fresh, one, &mut steps)?)?;
    }
    Ok(held)
}

/// What the objects of the first module of a library hold in memory, and those of all that it reaches, once a process of a fresh
/// loader has loaded it, or started it, where it is a program: module by module in the order in which they are attached, each page
/// fixed at the bases that the loader with one thread chooses (DosLoadModule; "32-bit Linear eXecutable Module Format": "Object
/// Page Table", "Fixup Record Table").
///
/// Where it is not loaded, the library is handed back with the reason: `NoModule`, also where it has no module, `NoEntry`,
/// `ForwardLoop`, `Gate286` or `ArenaFull`.
pub fn memory(alloc: Global, library: Library) -> Result<Vec<ModuleMemory>, Fail<Unloaded>>
    ensures answer { Answers result (λ held. IsMemory library held.items) (IsUnloaded library) }
    ensures addressed { IfOk result (λ held. All AreAddressed held.items) }
{
    lx_model::order_is_reach();
    match place(alloc, &library) {
        Ok(fresh) => {
            let own = OwnLibrary::of(library);
            Ok(all_held::<Brand>(alloc, &own, fresh.as_slice(), Blank::new(1))?)
        }
        Err(Fail::Said(why)) => Err(Fail::Said(Unloaded { why, library })),
        Err(Fail::NoMemory) => Err(Fail::NoMemory),
    }
}

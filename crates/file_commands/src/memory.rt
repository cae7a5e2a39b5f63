//! The command `memory`: what modules hold in memory once the first of them is loaded.
ghost use Rattle.std.specs.Prelude.{◌≡◌, IfOk, None, length, map, string_bytes};
ghost use Rattle.std.specs.List.{All};
ghost use Rattle.lx_model.specs.Gathering.{LibraryFault};
ghost use Rattle.lx_model.specs.Module.{IsRead};
ghost use Rattle.answer_model.specs.MemoryAnswer.{ShowsModules, first_name};
ghost use Rattle.answer_model.specs.Outcome.{says_only};
ghost use Rattle.answer_model.specs.Words as words;
ghost use Rattle.file_commands.specs.Doing.{Does};
ghost use Rattle.file_commands.specs.Refusals.{said_in};

use crate::held::held_text;
use crate::refusals::{in_full, ungathered};
use crate::told::Told;
use crate::unloaded::unloaded;
use lx_ports::Files;
use lx_types::{Module, NoMemory, count};
use memory_core::memory;
use mod_graph::Library;
use std::alloc::Global;
use tool_read::read_modules;

// The file of the module that is loaded.
fn first_of(names: &[String]) -> &str
    ensures { result.now ≡ first_name (map string_bytes names.now) }
{
    match names {
        [first, ..] => first.as_str(),
        [] => "",
    }
}

// What a library's first module holds, and all that it reaches, or why it is not loaded.
fn held(alloc: Global, name: &str, library: Library) -> Result<Told, NoMemory>
    requires { LibraryFault library ≡ None }
    ensures { IfOk result (λ told. ShowsModules name.now library (LibraryFault library) (says_only told.said)) }
{
    match memory(alloc, library) {
        Ok(held) => Ok(Told::done(held_text(alloc, &held)?)),
        Err(why) => unloaded(alloc, name, why),
    }
}

// The same of modules, or why they are no library.
fn shown(alloc: Global, name: &str, modules: Vec<Module>) -> Result<Told, NoMemory>
    requires { All IsRead modules.items }
    ensures { IfOk result (λ told. ShowsModules name.now modules.items (LibraryFault modules.items) (says_only told.said)) }
{
    count(modules.len())?;
    match Library::gather(alloc, modules) {
        Ok(library) => held(alloc, name, library),
        Err(refused) => ungathered(alloc, name, refused.why),
    }
}

/// Tells what the first of the modules holds in memory once it is loaded, or started where it is a program, by a loader that has
/// these modules alone, and each module that it reaches with it: loads and reads all in turn, and says the objects with their bytes,
/// in the order in which the modules are attached; or why the modules are no library, or why the first is not loaded, under its
/// name (Control Program reference: DosLoadModule, DosExecPgm). Nothing is saved.
pub fn show_memory<F: Files>(
    alloc: Global,
    files: &mut F,
    modules: &[String],
) -> Result<Told, NoMemory>
    ensures { Does (words.memory (map string_bytes modules.now)) (F.state files.old) (F.state files.new) (said_in result) }
{
    match read_modules(alloc, files, modules) {
        Ok(read) => shown(alloc, first_of(modules), read),
        Err(why) => in_full(alloc, why),
    }
}

//! The refusal of a module that is not loaded.
ghost use Rattle.std.specs.Prelude.{◌≡◌, ◌<◌, IfSome, length};
ghost use Rattle.answer_model.specs.MemoryAnswer.{unloaded_text};
ghost use Rattle.file_commands.specs.Refusals.{RefusesBy, said_in};

use crate::refusals::refused_as;
use crate::told::Told;
use lx_types::{Fail, NoMemory};
use memory_core::Unloaded;
use memory_model::MemoryRefusal;
use mod_graph::{Health, Library};
use refusal_text::{Cause, Obstacle};
use std::alloc::Global;

/// A module of a library, and one of its import modules, from 1.
struct Lack {
    by: u32,
    name_no: u32,
}

// The module that keeps the first one out, and which name it lacks, from 1, or 0.
fn lack_of(library: &Library, refusal: MemoryRefusal) -> Option<Lack> {
    if let MemoryRefusal::ArenaFull { of, .. } = refusal {
        return Some(Lack { by: of, name_no: 0 });
    }
    if library.is_empty() {
        return None;
    }
    match library.health(0) {
        Health::Fit => None,
        Health::NoModule { by, name_no } => Some(Lack { by, name_no }),
        Health::NoEntry { by } => Some(Lack { by, name_no: 0 }),
        Health::ForwardLoop { by } => Some(Lack { by, name_no: 0 }),
        Health::Gate286 { by } => Some(Lack { by, name_no: 0 }),
    }
}

// What keeps the first module out, by its name.
fn obstacle(alloc: Global, unloaded: &Unloaded) -> Result<Option<Obstacle>, NoMemory> {
    let library = &unloaded.library;
    let Some(Lack { by, name_no }) = lack_of(library, unloaded.why) else {
        return Ok(None);
    };
    if by >= library.len() {
        return Ok(None);
    }
    let module = library.module(by);
    let import = match (name_no as usize).checked_sub(1) {
        None => None,
        Some(place) => match module.imports().get(place) {
            None => None,
            Some(name) => Some(name.copied(alloc)?),
        },
    };
    Ok(Some(Obstacle {
        module: module.name().copied(alloc)?,
        import,
    }))
}

/// What is said of a module that is not loaded, under a name.
pub fn unloaded(alloc: Global, name: &str, why: Fail<Unloaded>) -> Result<Told, NoMemory>
    ensures { RefusesBy (λ own. unloaded_text own.why) name.now why (said_in result) }
{
    match why {
        Fail::Said(own) => {
            let at = obstacle(alloc, &own)?;
            let refusal = own.why;
            refused_as(alloc, name, Cause::Unloaded { refusal, at })
        }
        Fail::NoMemory => Err(NoMemory),
    }
}

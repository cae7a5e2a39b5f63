//! Whether an entry is for a command of a script.

ghost use Rattle.std.specs.Prelude.{◌≡◌, ◌↔◌, IsTrue, Some};
ghost use Rattle.load_model.specs.Modules.{number_of};
ghost use Rattle.load_model.specs.Asks.{ask_in};
ghost use Rattle.load_model.specs.declared.commands.Ask.TheVariants as asks;
ghost use Rattle.session_model.specs.Merging.{AsksFor};

use crate::sameness::Same;
use load_model::{Command, Deed, How, Place};
use lx_types::{Bytes, Name};
use mod_graph::Library;

// Whether the name means module `m`.
#[tactic(auto, unfolding(load_model::specs::Modules::number_of))]
fn means(lib: &Library, name: &Name, m: u32) -> bool
    ensures { IsTrue result ↔ (number_of lib.now name.now ≡ Some m) }
{
    match lib.find(name) {
        Some(found) => found == m,
        None => false,
    }
}

// Whether the deed is what came of such a start or load of the module.
fn is_entrance(lib: &Library, deed: &Deed, way: How, name: &Name) -> bool
    ensures { IsTrue result ↔ ((m : ℕ) × (number_of lib.now name.now ≡ Some m) × (ask_in deed.now ≡ asks.Enter way m)) }
{
    match deed {
        Deed::Enter { how, module, .. }
        | Deed::Full { how, module, .. }
        | Deed::Failed { how, module, .. } => how.is_same(&way) && means(lib, name, *module),
        _ => false,
    }
}

ghost use Rattle.std.specs.Prelude.{ℕ};

// Whether the deed gives up a load of the module.
fn is_free(lib: &Library, deed: &Deed, name: &Name) -> bool
    ensures { IsTrue result ↔ ((m : ℕ) × (number_of lib.now name.now ≡ Some m) × (ask_in deed.now ≡ asks.Free m)) }
{
    match deed {
        Deed::Free { module, .. } => means(lib, name, *module),
        _ => false,
    }
}

// Whether the deed reads the bytes of the place.
fn is_read(lib: &Library, deed: &Deed, place: &Place) -> bool
    ensures { IsTrue result ↔ ((m : ℕ) × (serial : ℕ) × (number_of lib.now place.now.«module» ≡ Some m)
        × (ask_in deed.now ≡ asks.Shared serial m place.now.object place.now.offset place.now.len)) }
{
    match deed {
        Deed::Shared {
            module,
            object,
            offset,
            bytes,
            ..
        } => {
            means(lib, &place.module, *module)
                && *object == place.object
                && *offset == place.offset
                && bytes.as_slice().len() == place.len as usize
        }
        _ => false,
    }
}

// Whether the deed writes the bytes to the place.
fn is_write(lib: &Library, deed: &Deed, place: &Place, written: &Bytes) -> bool
    ensures { IsTrue result ↔ ((m : ℕ) × (serial : ℕ) × (number_of lib.now place.now.«module» ≡ Some m)
        × (ask_in deed.now ≡ asks.Write serial m place.now.object place.now.offset written.now)) }
{
    match deed {
        Deed::Write {
            module,
            object,
            offset,
            bytes,
            ..
        } => {
            means(lib, &place.module, *module)
                && *object == place.object
                && *offset == place.offset
                && bytes.is_same(written)
        }
        _ => false,
    }
}

// Whether the deed writes the bytes to the process's own copy of the code at the place.
fn is_debug(lib: &Library, deed: &Deed, place: &Place, written: &Bytes) -> bool
    ensures { IsTrue result ↔ ((m : ℕ) × (serial : ℕ) × (number_of lib.now place.now.«module» ≡ Some m)
        × (ask_in deed.now ≡ asks.Debug serial m place.now.object place.now.offset written.now)) }
{
    match deed {
        Deed::Debug {
            module,
            object,
            offset,
            bytes,
            ..
        } => {
            means(lib, &place.module, *module)
                && *object == place.object
                && *offset == place.offset
                && bytes.is_same(written)
        }
        _ => false,
    }
}

// Whether the deed ends the process.
fn is_exit(deed: &Deed) -> bool
    ensures { IsTrue result ↔ (ask_in deed.now ≡ asks.Exit) }
{
    matches!(deed, Deed::Exit { .. })
}

/// Whether what a process did is what the command asks, where its name means a module. The residence of a place may be any:
/// which it has to be is judged by what may be asked.
pub fn asks_for(lib: &Library, command: &Command, deed: &Deed) -> bool
    ensures { IsTrue result ↔ AsksFor lib.now command.now (ask_in deed.now) }
{
    match command {
        Command::Start(name) => is_entrance(lib, deed, How::Start, name),
        Command::Load(name) => is_entrance(lib, deed, How::Load, name),
        Command::Free(name) => is_free(lib, deed, name),
        Command::Shared(place) => is_read(lib, deed, place),
        Command::Write(place, bytes) => is_write(lib, deed, place, bytes),
        Command::Debug(place, bytes) => is_debug(lib, deed, place, bytes),
        Command::Exit => is_exit(deed),
        Command::Touch(_) | Command::Peek(_) | Command::Query(..) | Command::GetRes(..) => false,
    }
}

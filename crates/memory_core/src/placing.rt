//! Where the modules stand that the first one brings in.

ghost use Rattle.std.specs.Prelude.{◌≡◌, ◌<◌, None, length, option_map};
ghost use Rattle.lx_types.specs.Answers.{Answers};
ghost use Rattle.load_model.specs.Modules as modules;
ghost use Rattle.memory_model.specs.Memory.{RefusesMemory, refusal_of};
ghost use Rattle.memory_core.specs.Brought.{HasBrought, refusal_without_room};

use load_model::Newcomers;
use lx_model::order_is_reach;
use lx_types::Fail;
use memory_model::MemoryRefusal;
use mod_graph::{Health, Library};
use residence_table::{NoRoom, ResidenceTable};
use std::alloc::Global;

// Why the first module cannot be loaded, by what it reaches.
#[tactic(auto, unfolding(load_model::specs::Modules::unfit))]
fn unfit(lib: &Library) -> Option<MemoryRefusal>
    requires { 0 < length lib.now }
    ensures { option_map refusal_of result ≡ modules.unfit lib.now 0 }
{
    match lib.health(0) {
        Health::Fit => None,
        Health::NoModule { .. } => Some(MemoryRefusal::NoModule),
        Health::NoEntry { .. } => Some(MemoryRefusal::NoEntry),
        Health::ForwardLoop { .. } => Some(MemoryRefusal::ForwardLoop),
        Health::Gate286 { .. } => Some(MemoryRefusal::Gate286),
    }
}

// The entry, which is the first, says that an object has no place.
fn without_room(none: NoRoom) -> MemoryRefusal
    ensures { result ≡ refusal_without_room none }
{
    MemoryRefusal::ArenaFull {
        of: none.of,
        object: none.object.object,
        size: none.object.size,
    }
}

// The residences that begin with the first module, where it can be loaded.
fn place_fit(alloc: Global, lib: &Library) -> Result<Newcomers, Fail<MemoryRefusal>>
    requires some { 0 < length lib.now }
    requires fit { modules.unfit lib.now 0 ≡ None }
    ensures { Answers result (HasBrought lib.now) (RefusesMemory lib.now) }
{
    order_is_reach();
    let nothing: ResidenceTable<()> = ResidenceTable::new(alloc);
    match nothing.place(alloc, lib, 0, lib.order(0)) {
        Ok(fresh) => Ok(fresh),
        Err(Fail::Said(none)) => Err(Fail::Said(without_room(none))),
        Err(Fail::NoMemory) => Err(Fail::NoMemory),
    }
}

/// The residences that begin with the first module of a library where nothing is resident, in the order of imports: each takes the
/// next serial number, from 1, and its objects take their linked bases where these are free, otherwise the least free places.
///
/// It is refused, in this order, where there is no module, or a name of an import table means no library (`NoModule`), a fixup's
/// target names no entry (`NoEntry`), leads back to where it came from (`ForwardLoop`) or is a call gate (`Gate286`), and where an
/// object has no place (`ArenaFull`).
pub fn place(alloc: Global, lib: &Library) -> Result<Newcomers, Fail<MemoryRefusal>>
    ensures { Answers result (HasBrought lib.now) (RefusesMemory lib.now) }
{
    if lib.is_empty() {
        return Err(Fail::Said(MemoryRefusal::NoModule));
    }
    match unfit(lib) {
        Some(refusal) => Err(Fail::Said(refusal)),
        None => place_fit(alloc, lib),
    }
}

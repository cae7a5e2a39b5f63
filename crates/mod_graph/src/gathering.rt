//! From modules to a library.

ghost use Rattle.std.specs.Prelude.{◌≡◌, ◌≤◌, ◌<◌, ◌^◌, IfOk, length};
ghost use Rattle.lx_types.specs.declared.limits.TheConstants.{MAX_MODULES};
ghost use Rattle.lx_model.specs.Library.{module_of};
ghost use Rattle.lx_model.specs.Gathering as gathering;
ghost use Rattle.lx_model.specs.Gathering.{LibraryFault, IsLibrary};
ghost use Rattle.mod_graph.specs.Gathering.{name_fault, Knows};

use crate::LibraryRefusal;
use crate::entries::{EntryPoints, place_count};
use crate::health::healths_of;
use crate::imports::{graph_of, module_with_name};
use crate::names::{NameIndex, indexes_of};
use crate::order::orders_of;
use lx_model::Health;
use lx_types::{MAX_MODULES_LEN, Module, Name, NoMemory, Numbers};
use std::alloc::Global;

/// What a library knows of its modules.
#[derive(Drop)]
pub struct Tables {
    pub names: Vec<NameIndex>,
    pub orders: Vec<Numbers>,
    pub healths: Vec<Health>,
    pub places: usize,
}

/// The name of module `m`.
fn name_of(mods: &[Module], m: usize) -> &Name
    requires { m < length mods.now }
    ensures { result.now ≡ (module_of mods.now m).name }
{
    mods[m].name()
}

/// What is wrong with the name of module `second`: an earlier one has it.
fn twice_at(mods: &[Module], second: u32) -> Option<LibraryRefusal>
    requires few { length mods.now ≤ MAX_MODULES }
    requires module { second < length mods.now }
    ensures { result ≡ gathering.twice_at mods.now second }
{
    match module_with_name(mods, name_of(mods, second as usize)) {
        Some(first) if first < second => Some(LibraryRefusal::NameTwice { first, second }),
        _ => None,
    }
}

/// The least module whose name an earlier one has.
fn name_twice(mods: &[Module]) -> Option<LibraryRefusal>
    requires { length mods.now ≤ MAX_MODULES }
    ensures { result ≡ name_fault mods.now }
{
    for second in 0..mods.len() {
        if let Some(refusal) = twice_at(mods, second as u32) {
            return Some(refusal);
        }
    }
    None
}

/// Why modules make no library.
pub fn refusal(mods: &[Module]) -> Option<LibraryRefusal>
    requires { length mods.now < 2 ^ 32 }
    ensures { result ≡ LibraryFault mods.now }
{
    if mods.len() > MAX_MODULES_LEN {
        Some(LibraryRefusal::TooManyModules {
            count: mods.len() as u32,
        })
    } else {
        name_twice(mods)
    }
}

/// What a library of these modules knows of them.
pub fn tables_of(alloc: Global, mods: &[Module]) -> Result<Tables, NoMemory>
    requires few { length mods.now ≤ MAX_MODULES }
    requires library { IsLibrary mods.now }
    ensures { IfOk result (λ tables. Knows mods.now tables.names.items tables.orders.items tables.healths.items tables.places) }
{
    let places = place_count(mods)?;
    let graph = graph_of(alloc, mods)?;
    let orders = orders_of(alloc, mods, &graph)?;
    let names = indexes_of(alloc, mods)?;
    let healths = healths_of(alloc, &EntryPoints::of(mods, &names, places), &orders)?;
    Ok(Tables {
        names,
        orders,
        healths,
        places,
    })
}

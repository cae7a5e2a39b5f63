//! Which modules the import tables of a library name.

ghost use Rattle.std.specs.Prelude.{◌≡◌, ◌≤◌, IfOk, IfSome, ◌<◌, ◌&&◌, length, map, filter_map, All};
ghost use Rattle.lx_model.specs.Library.{has_name, module_named, library_named};
ghost use Rattle.std.specs.List.{range_with_len};
ghost use Rattle.lx_model.specs.Reach.{imports_of};
ghost use Rattle.mod_graph.specs.Visiting.{AreWithin};
ghost use Rattle.lx_types.specs.Parts.{is_library_of};
ghost use Rattle.lx_types.specs.declared.limits.TheConstants.{MAX_MODULES};

use lx_types::{Module, Name, NoMemory, Numbers};
use std::alloc::Global;

/// Whether a module has this name.
fn is_named(m: &Module, name: &Name) -> bool
    ensures { result ≡ has_name name.now m.now }
{
    m.name().same_module(name)
}

/// Whether a module is a library of this name.
fn is_library_named(m: &Module, name: &Name) -> bool
    ensures { result ≡ (is_library_of m.now && has_name name.now m.now) }
{
    m.is_library() && is_named(m, name)
}

// The place of the first module of this name.
fn place_of(mods: &[Module], name: &Name) -> Option<usize>
    ensures number { result ≡ module_named mods.now name.now }
    ensures within { IfSome result (λ m. m < length mods.now) }
{
    mods.iter().position(|m| is_named(m, name))
}

// The place of the first library of this name.
fn library_place_of(mods: &[Module], name: &Name) -> Option<usize>
    ensures number { result ≡ library_named mods.now name.now }
    ensures within { IfSome result (λ m. m < length mods.now) }
{
    mods.iter().position(|m| is_library_named(m, name))
}

/// The module of this name.
pub fn module_with_name(mods: &[Module], name: &Name) -> Option<u32>
    requires { length mods.now ≤ MAX_MODULES }
    ensures number { result ≡ module_named mods.now name.now }
    ensures within { IfSome result (λ m. m < length mods.now) }
{
    match place_of(mods, name) {
        Some(m) => Some(m as u32),
        None => None,
    }
}

/// The library of this name: what an import means.
pub fn library_with_name(mods: &[Module], name: &Name) -> Option<u32>
    requires { length mods.now ≤ MAX_MODULES }
    ensures number { result ≡ library_named mods.now name.now }
    ensures within { IfSome result (λ m. m < length mods.now) }
{
    match library_place_of(mods, name) {
        Some(m) => Some(m as u32),
        None => None,
    }
}

/// The libraries that a module's import table names, in its order.
pub fn imports_among(alloc: Global, mods: &[Module], m: &Module) -> Result<Numbers, NoMemory>
    requires { length mods.now ≤ MAX_MODULES }
    ensures list { IfOk result (λ imports. imports ≡ filter_map (library_named mods.now) m.now.imports) }
    ensures within { IfOk result (λ imports. All (λ import. import < length mods.now) imports) }
{
    let mut imports = Numbers::new(alloc);
    for name in m.imports() {
        if let Some(import) = library_with_name(mods, name) {
            imports.push(import)?;
        }
    }
    Ok(imports)
}

/// The imports of each module.
pub fn graph_of(alloc: Global, mods: &[Module]) -> Result<Vec<Numbers>, NoMemory>
    requires { length mods.now ≤ MAX_MODULES }
    ensures list { IfOk result (λ graph. graph.items ≡ map (imports_of mods.now) (range_with_len 0 (length mods.now))) }
    ensures length { IfOk result (λ graph. length graph.items ≡ length mods.now) }
    ensures within { IfOk result (λ graph. AreWithin (length mods.now) graph.items) }
{
    let mut graph = Vec::new(alloc);
    for m in mods {
        graph.push(imports_among(alloc, mods, m)?)?;
    }
    Ok(graph)
}

//! The import library of a module.

ghost use Rattle.std.specs.Prelude.{◌≡◌, ◌<◌, ◌≤◌, ◌^◌, ℕ, IfOk, length, map};
ghost use Rattle.std.specs.List.{flat_map};
ghost use Rattle.lx_types.specs.Answers.{Answers};
ghost use Rattle.lx_model.specs.Module.{IsRead};
ghost use Rattle.omf_model.specs.Library.{Lib};
ghost use Rattle.implib_model.specs.ImportModule.{ImportFits};
ghost use Rattle.implib_model.specs.Library.{library_bytes, library_len};
ghost use Rattle.omf_write.specs.declared.libraries.TheConstants.{LIBRARY_LIMIT as limit};
ghost use Rattle.implib_model.specs.Imports.{modules_of, objects_of};
ghost use Rattle.implib_model.specs.ModuleImports.{import_named, imports_named};
ghost use Rattle.omf_write.specs.Lent as lent;
ghost use Rattle.omf_write.specs.Lent.{AllFit};
ghost use Rattle.implib_core.specs.NamePlaces.{name_at, places_in, ArePlaces};

use crate::imports::{ImportLibrary, library_of};
use crate::places::Places;
use lx_model::read_modules_are_whole;
use lx_types::{EntryHead, Fail, Module, Name, NoMemory};
use omf_write::{LentEntry, LentImport, LibraryLong};
use std::alloc::Global;

// The import of a name of a module.
fn import_of<'a>(from: &'a Name, named: &'a (Name, u32)) -> LentImport<'a>
    requires from { 0 < length from.now }
    requires ordinal { named.now.1 < 2 ^ 16 }
    ensures is { lent.import_of result ≡ import_named from.entry.now named.entry.now }
    ensures fits { ImportFits (lent.import_of result) }
{
    LentImport {
        name: &named.0,
        module: from,
        entry: LentEntry::Ordinal(named.1),
    }
}

// The places of the names that have entries, in the order of ordinals.
fn places_in_order(
    alloc: Global,
    entries: &[(u32, EntryHead)],
    places: &Places,
) -> Result<Vec<usize>, NoMemory>
    ensures { IfOk result (λ order. order.items ≡ flat_map (λ e. places_in places.now e.0) entries.now) }
{
    let mut order = Vec::new(alloc);
    for (ordinal, _head) in entries {
        order.extend_from_slice(places.with(*ordinal))?;
    }
    Ok(order)
}

// The imports of the names at these places, in their order.
fn imports_at<'a>(
    alloc: Global,
    from: &'a Name,
    names: &'a [(Name, u32)],
    places: &[usize],
) -> Result<Vec<LentImport<'a>>, NoMemory>
    requires from { 0 < length from.now }
    requires places { ArePlaces names.now places.now }
    ensures are { IfOk result (λ imports.
        lent.imports_of imports.items ≡ map (λ p. import_named from.entry.now (name_at names.entry.now p)) places.now) }
    ensures fit { IfOk result (λ imports. AllFit imports.items) }
{
    let mut imports = Vec::with_capacity(alloc, places.len())?;
    for &place in places {
        imports.push(import_of(from, &names[place]))?;
    }
    Ok(imports)
}

// The imports of a module's names that have entries.
fn imports_named(alloc: Global, m: &Module) -> Result<Vec<LentImport<'_>>, NoMemory>
    requires { IsRead m.now }
    ensures are { IfOk result (λ imports. lent.imports_of imports.items ≡ imports_named m.entry.now) }
    ensures fit { IfOk result (λ imports. AllFit imports.items) }
{
    read_modules_are_whole();
    let names = m.names();
    let places = Places::of(alloc, names)?;
    let order = places_in_order(alloc, m.entries(), &places)?;
    imports_at(alloc, m.name(), names, &order)
}

/// The import library of a module: an object module for each of its names that has an entry, by which a program that
/// links with the library imports it by its ordinal. They stand in the order of ordinals; where an ordinal has several
/// names, in that of the resident and then the non-resident name table. The first name of each table is no export's.
/// Read again, the library has just these imports. It takes time that grows as the tables do.
///
/// `LibraryLong` exactly where it would have more than 16,777,216 bytes.
pub fn imports_of_module(alloc: Global, m: &Module) -> Result<ImportLibrary, Fail<LibraryLong>>
    requires { IsRead m.now }
    ensures written { Answers result
        (λ made. (made.bytes.items ≡ library_bytes (modules_of (imports_named m.now)))
        × (library_len (modules_of (imports_named m.now)) ≤ limit))
        (λ _. limit < library_len (modules_of (imports_named m.now))) }
    ensures read { IfOk result (λ made. Lib made.bytes.items (objects_of (imports_named m.now))) }
    ensures counted { IfOk result (λ made. made.imports ≡ length (imports_named m.now)) }
{
    let imports = imports_named(alloc, m)?;
    library_of(alloc, &imports)
}

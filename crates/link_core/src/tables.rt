//! The import tables of a module: what its fixups name, and after it what its forwarders name ("Import Module Name
//! Table", "Import Procedure Name Table").

ghost use Rattle.std.specs.Prelude.{◌≡◌, ◌++◌, IfOk, OnOk, List, map, bytes_eq, option_to_list};
ghost use Rattle.std.specs.List.{filter_map};
ghost use Rattle.obj_types.specs.declared.symbol.Imp.{Imp};
ghost use Rattle.link_model.specs.Appearance.{firsts};
ghost use Rattle.link_model.specs.ImportTables.{modules_in, procs_in};
ghost use Rattle.link_fix.specs.Tables.{AreFirst, ArePairs};
ghost use Rattle.link_core.specs.Exports.{pair_in};

use crate::exports::forwarded;
use link_fix::{FirstNames, ImportTables};
use link_place::Placed;
use link_types::{Places, Symbols};
use lx_types::{Name, NoMemory};
use obj_types::Exp;
use std::alloc::Global;

// The names in the order in which each first stands.
fn first_names(alloc: Global, names: &[Name]) -> Result<FirstNames, NoMemory>
    ensures { IfOk result (λ table. AreFirst table (firsts bytes_eq names.now)) }
{
    let mut table = FirstNames::new(alloc);
    for name in names {
        let name = name.copied(alloc)?;
        table.push(alloc, name)?;
    }
    Ok(table)
}

// Adds the import pair of an export that leads to another module.
fn add_forward(
    alloc: Global,
    tables: &mut ImportTables,
    places: &Places,
    syms: &Symbols,
    export: &Exp,
) -> Result<(), NoMemory>
    ensures { OnOk result ((pairs : List Imp) → ArePairs tables.old pairs
        → ArePairs tables.new (pairs ++ option_to_list (pair_in places.now syms.now export.now))) }
{
    if let Some(pair) = forwarded(places, syms, export) {
        tables.push(alloc, pair)?;
    }
    Ok(())
}

// Adds the import pairs of exports that lead to other modules.
fn add_forwards(
    alloc: Global,
    tables: &mut ImportTables,
    places: &Places,
    syms: &Symbols,
    exports: &[&Exp],
) -> Result<(), NoMemory>
    ensures { OnOk result ((pairs : List Imp) → ArePairs tables.old pairs
        → ArePairs tables.new (pairs ++ filter_map (pair_in places.now syms.now) (map (λ x. x.now) exports.now))) }
{
    for export in exports {
        add_forward(alloc, tables, places, syms, export)?;
    }
    Ok(())
}

// The import tables of the pairs that fixups name, where these are their modules and procedures.
fn first_tables(alloc: Global, placed: &Placed) -> Result<ImportTables, NoMemory>
    ensures { IfOk result (λ tables. (pairs : List Imp) → placed.now.imports ≡ modules_in pairs → placed.now.procs ≡ procs_in pairs
        → ArePairs tables pairs) }
{
    let modules = first_names(alloc, placed.imports.as_slice())?;
    let procs = first_names(alloc, placed.procs.as_slice())?;
    Ok(ImportTables::of(modules, procs))
}

/// The import tables of the pairs that fixups name, and after them of the exports that lead to other modules.
pub fn link_tables(
    alloc: Global,
    places: &Places,
    syms: &Symbols,
    placed: &Placed,
    exports: &[&Exp],
) -> Result<ImportTables, NoMemory>
    ensures { IfOk result (λ tables. (pairs : List Imp) → placed.now.imports ≡ modules_in pairs → placed.now.procs ≡ procs_in pairs
        → ArePairs tables (pairs ++ filter_map (pair_in places.now syms.now) (map (λ x. x.now) exports.now))) }
{
    let mut tables = first_tables(alloc, placed)?;
    add_forwards(alloc, &mut tables, places, syms, exports)?;
    Ok(tables)
}

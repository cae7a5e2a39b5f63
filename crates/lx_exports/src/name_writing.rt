//! Writes the resident and the non-resident name table ("Resident or Non-resident Name Table
//! Entry").

ghost use Rattle.std.specs.Prelude.{◌≡◌, ◌∷◌, ◌++◌, ◌<◌, ◌==◌, [], None, Some, OnOk, IfOk, length, map, filter};
ghost use Rattle.std.specs.List.{flat_map};
ghost use Rattle.lx_types.specs.Names.{IsName};
ghost use Rattle.lx_types.specs.Answers.{Answers};
ghost use Rattle.lx_model.specs.NameTables.{name_spelling, names_spelling};
ghost use Rattle.lx_model.specs.ExportTables.{named, resident_table, other_table, described};
ghost use Rattle.link_model.specs.Exports.{name_twice};
ghost use Rattle.std.specs.Bool.{beq};
ghost use Rattle.lx_exports.specs.Exports.{names_of, is_resident, with_ordinals};

use crate::exports::OutEntry;
use link_model::EntryRefusal;
use lx_types::{Fail, Name, NoMemory};
use name_table::LentTable;
use std::alloc::{AllocError, Global};

/// That no two exports have one name.
pub fn check_names(alloc: Global, exports: &[OutEntry]) -> Result<(), Fail<EntryRefusal>>
    ensures { Answers result
        (λ _. name_twice (names_of exports.now) ≡ None)
        (λ refusal. name_twice (names_of exports.now) ≡ Some refusal) }
{
    let mut names = LentTable::new(alloc);
    for export in exports {
        let had = names.push(export.name.bytes(), ())?;
        if had.is_some() {
            let name = export.name.copied(alloc)?;
            return Err(Fail::Said(EntryRefusal::NameTwice { name }));
        }
    }
    Ok(())
}

// A length byte, the name, and an ordinal word.
fn push_name(out: &mut Vec<u8>, name: &[u8], ordinal: u16) -> Result<(), AllocError>
    requires { IsName name.now }
    ensures { OnOk result (out.new.items ≡ out.old.items ++ name_spelling (name.now, ordinal)) }
{
    out.push(name.len() as u8)?;
    out.extend_from_slice(name)?;
    out.extend_from_slice(&ordinal.to_le_bytes())
}

// Whether the name of an export is resident.
fn is_resident(export: &OutEntry) -> bool
    ensures { result ≡ is_resident export.now }
{
    export.ordinal.is_none() || export.resident
}

// The names of the exports whose names are resident, or of the others.
fn push_names(
    out: &mut Vec<u8>,
    exports: &[OutEntry],
    ordinals: &[u16],
    resident: bool,
) -> Result<(), AllocError>
    ensures { OnOk result (out.new.items ≡ out.old.items
        ++ flat_map name_spelling (map named (filter (λ x. beq x.resident resident) (with_ordinals exports.now ordinals.now)))) }
{
    for (export, &ordinal) in exports.iter().zip(ordinals) {
        if is_resident(export) == resident {
            push_name(out, export.name.bytes(), ordinal)?;
        }
    }
    Ok(())
}

// A name table: its first entry, which has the ordinal 0, and then the names of exports.
fn name_table(
    alloc: Global,
    first: &[u8],
    exports: &[OutEntry],
    ordinals: &[u16],
    resident: bool,
) -> Result<Vec<u8>, NoMemory>
    requires { IsName first.now }
    ensures { IfOk result (λ bytes. bytes.items ≡ names_spelling ((first.now, 0)
        ∷ map named (filter (λ x. beq x.resident resident) (with_ordinals exports.now ordinals.now)))) }
{
    let mut out = Vec::new(alloc);
    push_name(&mut out, first, 0)?;
    push_names(&mut out, exports, ordinals, resident)?;
    out.push(0)?;
    Ok(out)
}

/// The resident name table: the module's name, in upper case, and then the resident names.
pub fn resident_names(
    alloc: Global,
    name: &Name,
    exports: &[OutEntry],
    ordinals: &[u16],
) -> Result<Vec<u8>, NoMemory>
    ensures { IfOk result (λ bytes. bytes.items
        ≡ names_spelling (resident_table name.now (with_ordinals exports.now ordinals.now))) }
{
    let name = name.to_uppercase(alloc)?;
    name_table(alloc, name.bytes(), exports, ordinals, true)
}

/// The non-resident name table: the description, and then the other names. In the place of an empty
/// description stands the module's name.
pub fn other_names(
    alloc: Global,
    name: &Name,
    about: &Name,
    exports: &[OutEntry],
    ordinals: &[u16],
) -> Result<Vec<u8>, NoMemory>
    ensures { IfOk result (λ bytes. bytes.items
        ≡ names_spelling (other_table name.now about.now (with_ordinals exports.now ordinals.now))) }
{
    if about.bytes().is_empty() {
        let name = name.to_uppercase(alloc)?;
        return name_table(alloc, name.bytes(), exports, ordinals, false);
    }
    name_table(alloc, about.bytes(), exports, ordinals, false)
}

//! The import pairs that a link knows, in order of definition.

ghost use Rattle.std.specs.Prelude.{◌≡◌, map, IfOk, OnOk};
ghost use Rattle.link_model.specs.Appearance.{place_by};
ghost use Rattle.link_model.specs.Symbols.{import_key, same_import};
ghost use Rattle.sym_table.specs.Definitions.{shown, imports_among};
ghost use Rattle.sym_table.specs.ImportLists.{AreListed, with_import};

use crate::definitions::{Definition, Meaning};
use crate::import_keys::{PairKey, place_in};
use indexmap::IndexMap;
use lx_types::{EntryKey, NoMemory, Seq};
use obj_types::Imp;
use std::alloc::Global;

fn copied_entry(alloc: Global, entry: &EntryKey) -> Result<EntryKey, NoMemory>
    ensures { IfOk result (λ copy. copy ≡ entry.now) }
{
    match entry {
        EntryKey::Ordinal(ordinal) => Ok(EntryKey::Ordinal(*ordinal)),
        EntryKey::Named(name) => Ok(EntryKey::Named(name.copied(alloc)?)),
    }
}

/// A second import pair that is the same.
pub fn copied_import(alloc: Global, import: &Imp) -> Result<Imp, NoMemory>
    ensures { IfOk result (λ copy. copy ≡ import.now) }
{
    Ok(Imp {
        name: import.name.copied(alloc)?,
        module: import.module.copied(alloc)?,
        entry: copied_entry(alloc, &import.entry)?,
    })
}

/// Import pairs, each once, with a table of them in the same order.
#[derive(Drop)]
pub struct Imports<'a> {
    pub list: Seq<Imp>,
    pub places: IndexMap<PairKey<'a>, ()>,
}

// Adds a pair unless it is there.
fn add_import<'a>(alloc: Global, imports: &mut Imports<'a>, import: &'a Imp) -> Result<(), NoMemory>
    requires { AreListed imports.old }
    ensures listed { OnOk result (AreListed imports.new) }
    ensures list { OnOk result (imports.new.list ≡ with_import imports.old.list import.entry.now) }
{
    let had = imports.places.insert(PairKey { pair: import }, ())?;
    if had.is_none() {
        imports.list.push(copied_import(alloc, import)?)?;
    }
    Ok(())
}

/// The place of an import pair among these, from 0.
pub fn slot_of<'a>(imports: &Imports<'a>, import: &'a Imp) -> Option<usize>
    requires { AreListed imports.now }
    ensures { result ≡ place_by same_import import_key (import_key import.entry.now) imports.entry.now.list }
{
    place_in(&imports.places, import)
}

/// The import pairs of these definitions: each once, in the first spelling.
pub fn imports_of<'a>(alloc: Global, found: &[Definition<'a>]) -> Result<Imports<'a>, NoMemory>
    ensures listed { IfOk result (λ imports. AreListed imports) }
    ensures list { IfOk result (λ imports. imports.list ≡ imports_among (map shown found.entry.now)) }
{
    let mut imports = Imports {
        list: Seq::new(alloc),
        places: IndexMap::new(alloc),
    };
    for definition in found {
        if let Meaning::Imported(import) = definition.meaning {
            add_import(alloc, &mut imports, import)?;
        }
    }
    Ok(imports)
}

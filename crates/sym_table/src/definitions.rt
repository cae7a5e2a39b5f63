//! The definitions of all names, in order: the publics and the imports of each chosen module, and the definition
//! file's IMPORTS last.

ghost use Rattle.std.specs.Prelude.{◌≡◌, ◌++◌, not, map, filter, IfOk, OnOk};
ghost use Rattle.link_model.specs.Symbols.{of_public, of_import, definitions_in, definitions};
ghost use Rattle.link_types.specs.Links.{link_with};
ghost use Rattle.sym_table.specs.Definitions.{shown};

use lx_types::{Name, NoMemory, count};
use obj_types::{Imp, LinkInput, ObjModule, Pub, PubPlace};
use std::alloc::Global;

/// What a definition says: where a public is, or the pair of an import.
#[derive(Clone, Copy)]
pub enum Meaning<'a> {
    Public(PubPlace),
    Imported(&'a Imp),
}

/// A definition, with the number of the chosen module that has it, or 0 for the definition file.
#[derive(Clone, Copy)]
pub struct Definition<'a> {
    pub name: &'a Name,
    pub by: u32,
    pub meaning: Meaning<'a>,
}

fn add_publics<'a>(
    found: &mut Vec<Definition<'a>>,
    by: u32,
    publics: &'a [Pub],
) -> Result<(), NoMemory>
    ensures { OnOk result (map shown found.new.items
        ≡ map shown found.old.items ++ map (of_public by) (filter (λ p. not p.local) publics.entry.now)) }
{
    for public in publics {
        if !public.local {
            found.push(Definition {
                name: &public.name,
                by,
                meaning: Meaning::Public(public.place),
            })?;
        }
    }
    Ok(())
}

fn add_imports<'a>(
    found: &mut Vec<Definition<'a>>,
    by: u32,
    imports: &'a [Imp],
) -> Result<(), NoMemory>
    ensures { OnOk result (map shown found.new.items ≡ map shown found.old.items ++ map (of_import by) imports.entry.now) }
{
    for import in imports {
        found.push(Definition {
            name: &import.name,
            by,
            meaning: Meaning::Imported(import),
        })?;
    }
    Ok(())
}

fn add_module<'a>(
    found: &mut Vec<Definition<'a>>,
    by: u32,
    object: &'a ObjModule,
) -> Result<(), NoMemory>
    ensures { OnOk result (map shown found.new.items ≡ map shown found.old.items ++ definitions_in by object.entry.now) }
{
    add_publics(found, by, object.pubs.as_slice())?;
    add_imports(found, by, object.imports.as_slice())
}

/// All definitions of a link of these modules.
pub fn definitions_of<'a>(
    alloc: Global,
    input: &'a LinkInput,
    modules: &[&'a ObjModule],
) -> Result<Vec<Definition<'a>>, NoMemory>
    ensures { IfOk result (λ found. map shown found.items ≡ definitions (link_with input.entry.now modules.entry.now)) }
{
    let mut found = Vec::new(alloc);
    for (index, object) in modules.iter().enumerate() {
        add_module(&mut found, count(index + 1)?, object)?;
    }
    add_imports(&mut found, 0, input.def.imports.as_slice())?;
    Ok(found)
}

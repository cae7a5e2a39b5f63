//! How many import modules a link names.

ghost use Rattle.std.specs.Prelude.{◌≡◌, Some, None, map, length, bytes_eq, IfOk, OnOk};
ghost use Rattle.lx_types.specs.Answers.{Answers};
ghost use Rattle.lx_types.specs.Names.{uppercase};
ghost use Rattle.link_model.specs.Appearance.{firsts};
ghost use Rattle.name_table.specs.Entries.{with_entry};
ghost use Rattle.sym_table.specs.Counting.{imports_many_of};

use link_model::{MAX_NUMBER, SymRefusal};
use lx_types::{Fail, Name, NoMemory, count};
use name_table::NameTable;
use obj_types::Imp;
use std::alloc::Global;

// Adds a module's name in upper case, for which the letters are the room.
fn add_module(
    alloc: Global,
    modules: &mut NameTable<()>,
    letters: &mut Vec<u8>,
    name: &Name,
) -> Result<(), NoMemory>
    ensures { OnOk result (modules.new ≡ with_entry modules.old (uppercase name.now) tt) }
{
    letters.clear();
    letters.extend_from_slice(name.bytes())?;
    letters.make_ascii_uppercase();
    modules.push(alloc, letters.as_slice(), ())?;
    Ok(())
}

/// How many different modules these import pairs name, in any case of letters.
fn module_count(alloc: Global, imports: &[Imp]) -> Result<usize, NoMemory>
    ensures { IfOk result (λ count. count ≡ length (firsts bytes_eq (map (λ i. uppercase i.module) imports.now))) }
{
    let mut modules = NameTable::new(alloc);
    let mut letters = Vec::new(alloc);
    for import in imports {
        add_module(alloc, &mut modules, &mut letters, &import.module)?;
    }
    Ok(modules.len())
}

/// Whether the format's 16-bit numbers count the import modules.
pub fn check_imports(alloc: Global, imports: &[Imp]) -> Result<(), Fail<SymRefusal>>
    ensures { Answers result (λ _. imports_many_of imports.now ≡ None) (λ refusal. imports_many_of imports.now ≡ Some refusal) }
{
    let count = count(module_count(alloc, imports)?)?;
    if count > MAX_NUMBER {
        return Err(Fail::Said(SymRefusal::ImportsMany { count }));
    }
    Ok(())
}

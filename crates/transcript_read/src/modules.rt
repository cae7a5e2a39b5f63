//! The modules of a library by their names, as a transcript has them.

ghost use Rattle.std.specs.Prelude.{◌≡◌, ◌+◌, ◌<◌, length, IfOk};
ghost use Rattle.session_model.specs.Transcript.{module_text};
ghost use Rattle.check_model.specs.Told.{IsModuleOf};
ghost use Rattle.dump_model.specs.Words.{Tells};
ghost use Rattle.transcript_read.specs.Modules.{NamesFirst};

use lx_types::{NoMemory, push_escaped};
use mod_graph::Library;
use name_table::NameTable;
use std::alloc::Global;
use std::marker::Model;

/// The modules of a library by their names, each with its escapes.
#[derive(Drop)]
pub struct ModuleNames<'a> {
    lib: &'a Library,
    table: NameTable<u32>,
}

impl<'a> Model for ModuleNames<'a> {
    ghost use Rattle.load_model.specs.Modules.{Library};
    ghost use Rattle.transcript_read.specs.Modules.{NamesAll};

    ghost Value = { Library };

    ghost view = { λ n. n.lib.now };

    ghost invariant = { λ n. NamesAll n.lib.now n.table };
}

// The table with one more name.
fn with_module(
    alloc: Global,
    table: NameTable<u32>,
    lib: &Library,
    m: u32,
) -> Result<NameTable<u32>, NoMemory>
    requires within { m < length lib.now }
    requires so_far { NamesFirst lib.now m table }
    ensures { IfOk result (λ longer. NamesFirst lib.now (m + 1) longer) }
{
    let mut table = table;
    let mut name = Vec::new(alloc);
    push_escaped(&mut name, lib.module(m).name().bytes())?;
    table.push(alloc, &name, m)?;
    Ok(table)
}

impl<'a> ModuleNames<'a> {
    /// The modules of a library, in time linear in their names.
    pub fn of(alloc: Global, lib: &'a Library) -> Result<ModuleNames<'a>, NoMemory>
        ensures { IfOk result (λ names. names ≡ lib.now) }
    {
        let mut table = NameTable::new(alloc);
        for m in 0..lib.len() {
            table = with_module(alloc, table, lib, m)?;
        }
        Ok(ModuleNames { lib, table })
    }

    /// The module that a word names.
    pub(crate) fn module_of(&self, word: &[u8]) -> Option<u32>
        ensures { Tells (module_text self.now) (IsModuleOf self.now) result word.now }
    {
        self.table.get(word).copied()
    }
}

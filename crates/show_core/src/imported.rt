//! The modules that a module imports from, and what it imports ("Import Module Name Table", "Import Procedure Name Table").

ghost use Rattle.std.specs.Prelude.{◌≡◌, ◌++◌, ◌∷◌, [], codes, count_by, length, IfOk, OnOk};
ghost use Rattle.show_model.specs.Lists.{is_import};
ghost use Rattle.show_model.specs.Outlines.{tallies};

use crate::exports::import_name;
use crate::line;
use crate::outline::{Line, Told, add_list, line_of};
use line_words::Word;
use lx_types::{FixTarget, Module, Name, NoMemory};
use show_model::Part;
use std::alloc::Global;

impl Told<Module> for Name {
    fn line<'x>(&'x self, alloc: Global, number: u64, _m: &'x Module) -> Line {
        line!(alloc; Count number, Text self.bytes())
    }
}

impl Told<Module> for FixTarget {
    fn line<'x>(&'x self, alloc: Global, _number: u64, m: &'x Module) -> Line {
        let key = match *self {
            FixTarget::Ordinal { ordinal, .. } | FixTarget::Own { ordinal } => Word::Ordinal(
                ordinal,
            ),
            FixTarget::Named { name_at, .. } => Word::Text(m.proc_name(name_at).unwrap_or(&[])),
            FixTarget::Internal { offset, .. } => Word::Hex(offset),
        };
        line_of(alloc, &[Word::Text(import_name(m, module_of(self))), key])
    }
}

fn is_import(target: FixTarget) -> bool
    ensures { result ≡ is_import target }
{
    matches!(target, FixTarget::Ordinal { .. } | FixTarget::Named { .. })
}

fn imports_among(alloc: Global, refs: &[FixTarget]) -> Result<Vec<FixTarget>, NoMemory>
    ensures { IfOk result (λ imports. length imports.items ≡ count_by is_import refs.now) }
{
    let mut imports = Vec::new(alloc);
    for target in refs {
        if is_import(*target) {
            imports.push(*target)?;
        }
    }
    Ok(imports)
}

// The number of the module that is imported from, and 0 where none is.
fn module_of(target: &FixTarget) -> u32 {
    match *target {
        FixTarget::Ordinal { import, .. } | FixTarget::Named { import, .. } => import,
        FixTarget::Internal { .. } | FixTarget::Own { .. } => 0,
    }
}

fn add_modules(alloc: Global, out: &mut Vec<Part>, m: &Module) -> Result<(), NoMemory>
    ensures { OnOk result (tallies out.new.items ≡ tallies out.old.items ++ (codes "import modules", length m.now.imports) ∷ []) }
{
    add_list(alloc, out, "import modules", m.imports(), m)
}

fn add_imported(alloc: Global, out: &mut Vec<Part>, m: &Module) -> Result<(), NoMemory>
    ensures { OnOk result (tallies out.new.items ≡ tallies out.old.items ++ (codes "imported entry points", count_by is_import m.now.refs) ∷ []) }
{
    let mut imports = imports_among(alloc, m.refs())?;
    imports.sort_by_key(|target| module_of(target))?;
    add_list(alloc, out, "imported entry points", imports.as_slice(), m)
}

/// Adds the import modules by their numbers, and what is imported, module by module.
pub fn add_imports(alloc: Global, out: &mut Vec<Part>, m: &Module) -> Result<(), NoMemory>
    ensures { OnOk result (tallies out.new.items ≡ tallies out.old.items ++
        ((codes "import modules", length m.now.imports) ∷ (codes "imported entry points", count_by is_import m.now.refs) ∷ [])) }
{
    add_modules(alloc, out, m)?;
    add_imported(alloc, out, m)
}

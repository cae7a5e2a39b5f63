//! What each name means, and whether each external and each export means something.

ghost use Rattle.std.specs.Prelude.{◌≡◌, Some, None, map, option_map, IfOk};
ghost use Rattle.lx_types.specs.Answers.{Answers};
ghost use Rattle.name_table.specs.Entries.{value_named};
ghost use Rattle.link_model.specs.Appearance.{firsts};
ghost use Rattle.link_model.specs.Symbols.{at_place, same_import, import_key};
ghost use Rattle.link_model.specs.Appearance.{place_by};
ghost use Rattle.link_model.specs.declared.symbols.SymDef.TheVariants.{Import};
ghost use Rattle.link_model.specs.declared.refusals.SymRefusal.TheVariants.{Missing};
ghost use Rattle.sym_table.specs.Firsts.{same_name};
ghost use Rattle.sym_table.specs.ImportLists.{AreListed};
ghost use Rattle.sym_table.specs.Definitions.{meaning_shown, shown, meaning_among};
ghost use Rattle.link_model.specs.SymbolRefusals.{is_exportable};
ghost use Rattle.sym_table.specs.Meanings.{defined_by, meaning_by, missing_by, row_in, missing_row, missing_export_in};
ghost use Rattle.link_types.specs.Globals.{global_in};

use crate::definitions::{Definition, Meaning};
use crate::imports::{Imports, slot_of};
use crate::locals::locals_of;
use link_model::{SymDef, SymRefusal};
use link_types::Globals;
use lx_types::{Fail, Name, NoMemory, Seq, count};
use name_table::{LentTable, NameTable};
use obj_types::{Exp, Ext, Imp, ObjModule, PubPlace};
use std::alloc::Global;

fn at_place(by: u32, place: PubPlace) -> SymDef
    ensures { result ≡ at_place by place }
{
    match place {
        PubPlace::In { seg, offset } => SymDef::In {
            module: by,
            seg,
            offset,
        },
        PubPlace::Const { value } => SymDef::Const { value },
    }
}

fn import_meaning<'a>(imports: &Imports<'a>, import: &'a Imp) -> Result<Option<SymDef>, NoMemory>
    requires { AreListed imports.now }
    ensures { IfOk result (λ m. m ≡ option_map (λ slot. Import slot) (place_by same_import import_key (import_key import.entry.now) imports.entry.now.list)) }
{
    match slot_of(imports, import) {
        None => Ok(None),
        Some(slot) => Ok(Some(SymDef::Import { slot: count(slot)? })),
    }
}

fn meaning_of<'a>(
    imports: &Imports<'a>,
    definition: &Definition<'a>,
) -> Result<Option<SymDef>, NoMemory>
    requires { AreListed imports.now }
    ensures { IfOk result (λ m. m
        ≡ meaning_among imports.entry.now.list (shown definition.entry.now) (meaning_shown definition.entry.now.meaning)) }
{
    match definition.meaning {
        Meaning::Public(place) => Ok(Some(at_place(definition.by, place))),
        Meaning::Imported(import) => import_meaning(imports, import),
    }
}

/// What the definitions mean, by their names.
pub fn defined_of<'a>(
    alloc: Global,
    imports: &Imports<'a>,
    found: &[Definition<'a>],
) -> Result<NameTable<Option<SymDef>>, NoMemory>
    requires { AreListed imports.now }
    ensures { IfOk result (λ table. table ≡ firsts same_name (map (defined_by imports.entry.now.list) (map shown found.entry.now))) }
{
    let mut table = NameTable::with_room(alloc, found.len())?;
    for definition in found {
        let meaning = meaning_of(imports, definition)?;
        table.push(alloc, definition.name.bytes(), meaning)?;
    }
    Ok(table)
}

fn local_meaning(by: u32, locals: &LentTable<'_, PubPlace>, name: &Name) -> Option<SymDef>
    ensures { result ≡ option_map (at_place by) (value_named name.now locals.now) }
{
    match locals.get(name.bytes()) {
        None => None,
        Some(place) => Some(at_place(by, *place)),
    }
}

fn external_meaning(
    globals: &Globals,
    by: u32,
    locals: &LentTable<'_, PubPlace>,
    external: &Ext,
) -> Option<SymDef>
    ensures { result ≡ meaning_by globals.now by locals.now external.now }
{
    if external.local {
        local_meaning(by, locals, &external.name)
    } else {
        globals.meaning(external.name.bytes())
    }
}

fn missing(alloc: Global, name: &Name) -> Result<SymRefusal, NoMemory>
    ensures { IfOk result (λ r. r ≡ Missing name.now) }
{
    Ok(SymRefusal::Missing {
        name: name.copied(alloc)?,
    })
}

// The meanings of these externals, where a table has the module's local publics.
fn row_by(
    alloc: Global,
    globals: &Globals,
    by: u32,
    locals: &LentTable<'_, PubPlace>,
    externals: &[Ext],
) -> Result<Seq<SymDef>, Fail<SymRefusal>>
    ensures { Answers result
        (λ row. map Some row ≡ map (meaning_by globals.now by locals.now) externals.now)
        (λ refusal. missing_by (meaning_by globals.now by locals.now) externals.now ≡ Some refusal) }
{
    let mut row = Seq::new(alloc);
    for external in externals {
        match external_meaning(globals, by, locals, external) {
            None => return Err(Fail::Said(missing(alloc, &external.name)?)),
            Some(meaning) => row.push(meaning)?,
        }
    }
    Ok(row)
}

/// The meanings of a module's externals; the first that means nothing is `Missing`.
pub fn externals_of(
    alloc: Global,
    globals: &Globals,
    by: u32,
    object: &ObjModule,
) -> Result<Seq<SymDef>, Fail<SymRefusal>>
    ensures { Answers result
        (λ row. map Some row ≡ row_in globals.now by object.now)
        (λ refusal. missing_row globals.now by object.now ≡ Some refusal) }
{
    let locals = locals_of(alloc, object.pubs.as_slice())?;
    row_by(alloc, globals, by, &locals, object.exts.as_slice())
}

fn is_exportable(meaning: Option<SymDef>) -> bool
    ensures { result ≡ is_exportable meaning }
{
    match meaning {
        None | Some(SymDef::Const { .. }) => false,
        Some(_) => true,
    }
}

/// The first of these exports whose internal name means nothing or a constant is `Missing`.
pub fn check_exports(
    alloc: Global,
    globals: &Globals,
    exports: &[Exp],
) -> Result<(), Fail<SymRefusal>>
    ensures { Answers result
        (λ _. missing_export_in globals.now exports.now ≡ None)
        (λ refusal. missing_export_in globals.now exports.now ≡ Some refusal) }
{
    for export in exports {
        if !is_exportable(globals.meaning(export.internal.bytes())) {
            return Err(Fail::Said(missing(alloc, &export.internal)?));
        }
    }
    Ok(())
}

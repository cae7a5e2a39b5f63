//! What the names of a link mean that are not local.

ghost use Rattle.std.specs.Prelude.{◌≡◌, Some, None, map, filter, is_none, IfOk};
ghost use Rattle.lx_types.specs.Answers.{Answers};
ghost use Rattle.name_table.specs.Entries.{value_named};
ghost use Rattle.link_model.specs.Appearance.{firsts};
ghost use Rattle.link_model.specs.Symbols.{comdefs, definitions};
ghost use Rattle.link_model.specs.SymbolRefusals.{twice};
ghost use Rattle.link_types.specs.Links.{link_with};
ghost use Rattle.sym_table.specs.Firsts.{same_name};
ghost use Rattle.sym_table.specs.Definitions.{shown, imports_among};
ghost use Rattle.sym_table.specs.Communals.{with_greatest, slotted};
ghost use Rattle.sym_table.specs.Meanings as rules;
ghost use Rattle.sym_table.specs.Binding.{AreNamesOf};

use crate::communals::{Communals, comdefs_of, communals_of, undefined_of};
use crate::definitions::{Definition, definitions_of};
use crate::firsts::first_definitions;
use crate::imports::imports_of;
use crate::meanings::defined_of;
use link_model::{SymDef, SymRefusal};
use link_types::{GlobalNames, Globals};
use lx_types::{Fail, Name, NoMemory, Seq};
use name_table::{LentTable, NameTable};
use obj_types::{Common, Imp, LinkInput, ObjModule};
use std::alloc::Global;

// The communals of a link of these modules, where this table has the names that are defined.
fn communals_beside(
    alloc: Global,
    input: &LinkInput,
    modules: &[&ObjModule],
    defined: &LentTable<'_, Definition<'_>>,
) -> Result<Communals, NoMemory>
    ensures list { IfOk result (λ c. c.list
        ≡ (let all = comdefs (link_with input.now modules.now) in
        map (with_greatest all) (firsts same_name (filter (λ c. is_none (value_named c.0 defined.now)) all)))) }
    ensures slots { IfOk result (λ c. c.slots ≡ slotted c.list) }
{
    let comdefs = comdefs_of(alloc, input, modules)?;
    let undefined = undefined_of(alloc, defined, comdefs.as_slice())?;
    communals_of(alloc, comdefs.as_slice(), undefined.as_slice())
}

/// What definitions give: what each name means by its first one, and the import pairs.
#[derive(Drop)]
pub struct Defined {
    pub meanings: NameTable<Option<SymDef>>,
    pub imports: Seq<Imp>,
}

// What these definitions give.
fn defined_by(alloc: Global, found: &[Definition<'_>]) -> Result<Defined, NoMemory>
    ensures imports { IfOk result (λ d. d.imports ≡ imports_among (map shown found.now)) }
    ensures meanings { IfOk result (λ d. d.meanings
        ≡ firsts same_name (map (rules.defined_by (imports_among (map shown found.now))) (map shown found.now))) }
{
    let imports = imports_of(alloc, found)?;
    let meanings = defined_of(alloc, &imports, found)?;
    Ok(Defined {
        meanings,
        imports: imports.list,
    })
}

// The names by these definitions, the first of each name in a table, whose memory is given back before the meanings take
// theirs.
fn names_by(
    alloc: Global,
    input: &LinkInput,
    modules: &[&ObjModule],
    found: &[Definition<'_>],
    first: LentTable<'_, Definition<'_>>,
) -> Result<GlobalNames, NoMemory>
    ensures imports { IfOk result (λ n. n.imports ≡ imports_among (map shown found.now)) }
    ensures commons { IfOk result (λ n. n.commons
        ≡ (let all = comdefs (link_with input.now modules.now) in
        map (with_greatest all) (firsts same_name (filter (λ c. is_none (value_named c.0 first.entry)) all)))) }
    ensures defined { IfOk result (λ n. n.globals.defined
        ≡ firsts same_name (map (rules.defined_by (imports_among (map shown found.now))) (map shown found.now))) }
    ensures communal { IfOk result (λ n. n.globals.communal ≡ slotted n.commons) }
{
    let communals = communals_beside(alloc, input, modules, &first)?;
    drop(first);
    let defined = defined_by(alloc, found)?;
    Ok(GlobalNames {
        globals: Globals {
            defined: defined.meanings,
            communal: communals.slots,
        },
        commons: communals.list,
        imports: defined.imports,
    })
}

// The names of a link of these modules, by its definitions.
fn names_of(
    alloc: Global,
    input: &LinkInput,
    modules: &[&ObjModule],
    found: &[Definition<'_>],
) -> Result<GlobalNames, Fail<SymRefusal>>
    requires { map shown found.now ≡ definitions (link_with input.now modules.now) }
    ensures { Answers result
        (λ names. (twice (link_with input.now modules.now) ≡ None) × AreNamesOf (link_with input.now modules.now) names)
        (λ refusal. twice (link_with input.now modules.now) ≡ Some refusal) }
{
    match first_definitions(alloc, found) {
        Err(fail) => Err(fail),
        Ok(first) => Ok(names_by(alloc, input, modules, found, first)?),
    }
}

/// What the names of a link of these modules mean that are not local. A second definition is `Twice`.
pub fn global_names_of(
    alloc: Global,
    input: &LinkInput,
    modules: &[&ObjModule],
) -> Result<GlobalNames, Fail<SymRefusal>>
    ensures { Answers result
        (λ names. (twice (link_with input.now modules.now) ≡ None) × AreNamesOf (link_with input.now modules.now) names)
        (λ refusal. twice (link_with input.now modules.now) ≡ Some refusal) }
{
    let found = definitions_of(alloc, input, modules)?;
    names_of(alloc, input, modules, found.as_slice())
}

//! The externals and the exports of all chosen modules.

ghost use Rattle.std.specs.Prelude.{◌≡◌, Some, None, map};
ghost use Rattle.std.specs.List.{flat_map};
ghost use Rattle.lx_types.specs.Answers.{Answers};
ghost use Rattle.link_model.specs.Link.{exports};
ghost use Rattle.link_types.specs.Links.{link_with};
ghost use Rattle.sym_table.specs.Meanings.{rows_in, missing_external_in, missing_export_in};

use crate::meanings::{check_exports, externals_of};
use link_model::{SymDef, SymRefusal};
use link_types::Globals;
use lx_types::{Fail, Seq, count};
use obj_types::{LinkInput, ObjModule};
use std::alloc::Global;

/// The meanings of all externals, module by module; the first that means nothing is `Missing`.
pub fn meanings_of(
    alloc: Global,
    globals: &Globals,
    modules: &[&ObjModule],
) -> Result<Seq<Seq<SymDef>>, Fail<SymRefusal>>
    ensures { Answers result
        (λ rows. (map (map Some) rows ≡ rows_in globals.now (map (λ m. m.now) modules.now))
        × (missing_external_in globals.now (map (λ m. m.now) modules.now) ≡ None))
        (λ refusal. missing_external_in globals.now (map (λ m. m.now) modules.now) ≡ Some refusal) }
{
    let mut rows = Seq::new(alloc);
    for (index, object) in modules.iter().enumerate() {
        match externals_of(alloc, globals, count(index + 1)?, object) {
            Ok(row) => rows.push(row)?,
            Err(fail) => return Err(fail),
        }
    }
    Ok(rows)
}

fn check_module_exports(
    alloc: Global,
    globals: &Globals,
    modules: &[&ObjModule],
) -> Result<(), Fail<SymRefusal>>
    ensures { Answers result
        (λ _. missing_export_in globals.now (flat_map (λ m. m.exports) (map (λ m. m.now) modules.now)) ≡ None)
        (λ refusal. missing_export_in globals.now (flat_map (λ m. m.exports) (map (λ m. m.now) modules.now)) ≡ Some refusal) }
{
    for object in modules {
        match check_exports(alloc, globals, object.exports.as_slice()) {
            Ok(()) => {}
            Err(fail) => return Err(fail),
        }
    }
    Ok(())
}

/// The first export of a link whose internal name means nothing or a constant is `Missing`.
pub fn check_all_exports(
    alloc: Global,
    globals: &Globals,
    input: &LinkInput,
    modules: &[&ObjModule],
) -> Result<(), Fail<SymRefusal>>
    ensures { Answers result
        (λ _. missing_export_in globals.now (exports (link_with input.now modules.now)) ≡ None)
        (λ refusal. missing_export_in globals.now (exports (link_with input.now modules.now)) ≡ Some refusal) }
{
    match check_module_exports(alloc, globals, modules) {
        Ok(()) => check_exports(alloc, globals, input.def.exports.as_slice()),
        Err(fail) => Err(fail),
    }
}

//! Choosing modules and giving their names meanings.

ghost use Rattle.std.specs.Prelude.{◌≡◌, Some, None, map};
ghost use Rattle.lx_types.specs.Answers.{Answers};
ghost use Rattle.link_types.specs.Links.{link_with};
ghost use Rattle.sym_table.specs.Meanings.{rows_in};
ghost use Rattle.sym_table.specs.Refusing.{last_refusal, later_refusal};
ghost use Rattle.link_types.specs.Binding.{IsBound};
ghost use Rattle.sym_table.specs.Binding.{IsRefused};

use crate::all::{check_all_exports, meanings_of};
use crate::choosing::choose_by_names;
use crate::global_names::global_names_of;
use crate::names::check_imports;
use link_model::{SymDef, SymRefusal, modules_at};
use link_types::{GlobalNames, Symbols};
use lx_types::{Fail, Seq};
use obj_types::{LinkInput, ObjModule};
use std::alloc::Global;

// Whether each export leads somewhere and the import modules can be counted.
fn check_last(
    alloc: Global,
    input: &LinkInput,
    modules: &[&ObjModule],
    names: &GlobalNames,
) -> Result<(), Fail<SymRefusal>>
    ensures { Answers result
        (λ _. last_refusal names.now (link_with input.now modules.now) ≡ None)
        (λ refusal. last_refusal names.now (link_with input.now modules.now) ≡ Some refusal) }
{
    match check_all_exports(alloc, &names.globals, input, modules) {
        Ok(()) => check_imports(alloc, names.imports.as_slice()),
        Err(fail) => Err(fail),
    }
}

// What each external means, where nothing after `Twice` is to be refused.
fn external_meanings(
    alloc: Global,
    input: &LinkInput,
    modules: &[&ObjModule],
    names: &GlobalNames,
) -> Result<Seq<Seq<SymDef>>, Fail<SymRefusal>>
    ensures { Answers result
        (λ rows. (map (map Some) rows ≡ rows_in names.now.globals (map (λ m. m.now) modules.now))
        × (later_refusal names.now (link_with input.now modules.now) ≡ None))
        (λ refusal. later_refusal names.now (link_with input.now modules.now) ≡ Some refusal) }
{
    match meanings_of(alloc, &names.globals, modules) {
        Err(fail) => Err(fail),
        Ok(rows) => match check_last(alloc, input, modules, names) {
            Err(fail) => Err(fail),
            Ok(()) => Ok(rows),
        },
    }
}

/// The symbols of a link: which modules are chosen, and what each name means. `Twice`, `Missing` and `ImportsMany` are
/// tried in this order.
pub fn bind(alloc: Global, input: &LinkInput) -> Result<Symbols, Fail<SymRefusal>>
    ensures { Answers result (λ symbols. IsBound input.now symbols) (λ refusal. IsRefused input.now refusal) }
{
    let picks = choose_by_names(alloc, input)?;
    let modules = modules_at(alloc, input, picks.as_slice())?;
    match global_names_of(alloc, input, modules.as_slice()) {
        Err(fail) => Err(fail),
        Ok(names) => match external_meanings(alloc, input, modules.as_slice(), &names) {
            Err(fail) => Err(fail),
            Ok(meanings) => Ok(Symbols::of(picks, names, meanings)),
        },
    }
}

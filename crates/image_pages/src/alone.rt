//! A module that was read, loaded alone at its linked bases.

ghost use Rattle.std.specs.Prelude.{◌≡◌, IfOk};
ghost use Rattle.lx_types.specs.Answers.{Answers};
ghost use Rattle.lx_model.specs.Module.{IsRead};
ghost use Rattle.image_pages.specs.Alone as rules;

use crate::refusals::{ImageRefusal, full_object};
use crate::rows::rows_of;
use link_model::LaidObject;
use lx_types::{Bases, Bytes, Fail, ModBases, Module, NoMemory, ObjHead, Seq, SharedNumbers};
use mod_graph::gather_faultless;
use page_fix::OwnLibrary;
use std::alloc::Global;
use std::marker::Brand;
use std::sync::ledger::Blank;

// The linked bases of a module that stands alone.
fn linked_bases(alloc: Global, objects: &[ObjHead]) -> Result<Bases, NoMemory>
    ensures { IfOk result (λ bases. bases ≡ rules.linked_bases objects.now) }
{
    let bases = objects.iter().map(|object| object.base).collect(alloc)?;
    let mut mods = Seq::new(alloc);
    mods.push(ModBases {
        module: 0,
        objects: SharedNumbers::make(alloc, bases)?,
    })?;
    Ok(Bases { mods })
}

// The objects of the module, each with its bytes.
fn rows_alone(alloc: Global, module: Module) -> Result<Vec<(LaidObject, Bytes)>, NoMemory>
    requires { IsRead «module» }
    ensures { IfOk result (λ rows. rows.items ≡ rules.rows_alone «module») }
{
    let bases = linked_bases(alloc, module.objects())?;
    let mut modules = Vec::new(alloc);
    modules.push(module)?;
    let lib = OwnLibrary::of(gather_faultless(alloc, modules)?);
    rows_of::<Brand>(alloc, &lib, &bases, Blank::new(1))
}

/// The objects of a module that was read, each with its bytes where the module is loaded alone, at its linked bases.
pub fn loaded_alone(
    alloc: Global,
    module: Module,
) -> Result<Vec<(LaidObject, Bytes)>, Fail<ImageRefusal>>
    requires { IsRead «module» }
    ensures { Answers result (λ rows. rules.IsLoadedAlone «module» rows.items) (λ refusal. rules.loading_refusal «module» ≡ Some refusal) }
{
    if !module.imports().is_empty() {
        return Err(Fail::Said(ImageRefusal::NoModule));
    }
    match full_object(module.objects())? {
        Some(refusal) => Err(Fail::Said(refusal)),
        None => Ok(rows_alone(alloc, module)?),
    }
}

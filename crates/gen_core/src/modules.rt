//! The definition file of a module, and what is linked to it.

ghost use Rattle.std.specs.Prelude.{◌≡◌, IfOk};
ghost use Rattle.gen_model.specs.Modules as modules;

use crate::names::module_name;
use crate::objects::object_module;
use lx_types::{Bytes, NoMemory, Seq};
use obj_types::{DefFile, LinkInput, ModKind};
use std::alloc::Global;

/// The definition file of module `k`: the line `LIBRARY Gk`.
pub fn definition_text(alloc: Global, k: u32) -> Result<Bytes, NoMemory>
    ensures { IfOk result (λ text. text ≡ modules.definition_text k) }
{
    let line = format!(in alloc; "LIBRARY G{k}\n")?;
    Ok(Seq::from_vec(line.into_bytes()))
}

// What it means.
fn definition(alloc: Global, k: u32) -> Result<DefFile, NoMemory>
    ensures { IfOk result (λ d. d ≡ modules.gen_definition k) }
{
    let name = module_name(alloc, k)?;
    let mut definition = DefFile::empty(alloc, ModKind::Library, None);
    definition.name = Some(name);
    Ok(definition)
}

/// What module `k` is linked from: its object module and its definition file.
pub fn link_input(alloc: Global, k: u32) -> Result<LinkInput, NoMemory>
    ensures { IfOk result (λ input. input ≡ modules.gen_input k) }
{
    let mut objects = Seq::new(alloc);
    objects.push(object_module(alloc, k)?)?;
    Ok(LinkInput {
        objects,
        libs: Seq::new(alloc),
        def: definition(alloc, k)?,
        stem: module_name(alloc, k)?,
    })
}

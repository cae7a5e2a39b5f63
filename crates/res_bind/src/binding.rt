//! The bound file.

ghost use Rattle.std.specs.Prelude.{◌≡◌, ◌++◌, ◌-◌, Some, None, IfOk, length, replicate};
ghost use Rattle.lx_types.specs.Answers.{Answers};
ghost use Rattle.lx_model.specs.Module.{IsRead};
ghost use Rattle.lx_model.specs.Tables.{objects_of};
ghost use Rattle.res_model.specs.ResFile.{AreApart};
ghost use Rattle.res_model.specs.Bound.{bound_file, appended, with_fields};
ghost use Rattle.res_model.specs.Refusal.{bind_refusal, layout_refusal, size_refusal};
ghost use Rattle.res_bind.specs.Numbers.{HasHeader, IsPlanOf};

use crate::fields::set_fields;
use crate::header::old_tables;
use crate::items::{push_items, push_resources};
use crate::layout::{is_too_large, layout_of};
use crate::plan::Plan;
use crate::tables::{push_fixups, push_objects, push_pages};
use lx_types::{Fail, Module, NoMemory, ObjHead};
use res_model::{BindRefusal, ResItem};
use std::alloc::Global;

// The file with the header's fields set, and zeros up to the data of the new pages.
#[tactic(auto, using(crate::proofs::Lists::grown))]
fn front(alloc: Global, plan: &Plan<'_>) -> Result<Vec<u8>, NoMemory>
    requires { IsPlanOf plan.now.file.now plan.now.tables plan.now.objects.now plan.now.items.now plan.now.layout }
    ensures { IfOk result (λ out. out.items ≡ with_fields plan.now.file.now plan.now.items.now
        ++ replicate (plan.now.layout.contents - length plan.now.file.now) 0) }
{
    let mut out = Vec::from_slice(alloc, plan.file)?;
    set_fields(out.as_mut_slice(), plan);
    out.resize(plan.layout.contents as usize, 0)?;
    Ok(out)
}

// The file with the items, by its layout.
#[tactic(auto, unfolding(res_model::specs::Bound::appended))]
fn bound(alloc: Global, plan: &Plan<'_>) -> Result<Vec<u8>, NoMemory>
    requires { IsPlanOf plan.now.file.now plan.now.tables plan.now.objects.now plan.now.items.now plan.now.layout }
    ensures { IfOk result (λ out. out.items ≡ with_fields plan.now.file.now plan.now.items.now ++ appended plan.now.file.now plan.now.items.now) }
{
    let mut out = front(alloc, plan)?;
    push_items(&mut out, plan.items)?;
    push_objects(alloc, &mut out, plan)?;
    push_pages(alloc, &mut out, plan)?;
    push_fixups(&mut out, plan)?;
    push_resources(&mut out, plan.items, plan.tables.objects as u16 + 1)?;
    Ok(out)
}

// The file as it is.
fn unchanged(alloc: Global, file: &[u8]) -> Result<Vec<u8>, Fail<BindRefusal>>
    ensures { Answers result (λ bytes. (size_refusal (length file.now) ≡ None) × (bytes.items ≡ file.now))
        (λ refusal. size_refusal (length file.now) ≡ Some refusal) }
{
    if is_too_large(file.len() as u64) {
        return Err(Fail::Said(BindRefusal::TooLarge));
    }
    Ok(Vec::from_slice(alloc, file)?)
}

// The file with one object more.
fn extended(
    alloc: Global,
    file: &[u8],
    objects: &[ObjHead],
    items: &[ResItem],
) -> Result<Vec<u8>, Fail<BindRefusal>>
    requires header { HasHeader file.now }
    requires objects { objects.now ≡ objects_of file.now }
    ensures { Answers result
        (λ bytes. (layout_refusal file.now items.now ≡ None) × (bytes.items ≡ with_fields file.now items.now ++ appended file.now items.now))
        (λ refusal. layout_refusal file.now items.now ≡ Some refusal) }
{
    let tables = old_tables(file);
    match layout_of(file, &tables, items) {
        Ok(layout) => {
            let plan = Plan {
                file,
                tables,
                objects,
                items,
                layout,
            };
            Ok(bound(alloc, &plan)?)
        }
        Err(refusal) => Err(Fail::Said(refusal)),
    }
}

// The file of a module with items.
#[tactic(auto, unfolding(res_model::specs::Refusal::bind_refusal))]
fn bind_file(
    alloc: Global,
    file: &[u8],
    objects: &[ObjHead],
    items: &[ResItem],
) -> Result<Vec<u8>, Fail<BindRefusal>>
    requires header { HasHeader file.now }
    requires objects { objects.now ≡ objects_of file.now }
    ensures { Answers result
        (λ bytes. (bind_refusal file.now items.now ≡ None) × (bytes.items ≡ bound_file file.now items.now))
        (λ refusal. bind_refusal file.now items.now ≡ Some refusal) }
{
    if old_tables(file).resources != 0 {
        return Err(Fail::Said(BindRefusal::HasResources));
    }
    if items.is_empty() {
        return unchanged(alloc, file);
    }
    extended(alloc, file, objects, items)
}

/// The file of the module with the items as its resources: one object more, which has their bytes, and a resource table.
/// Without items it is the module's file.
///
/// The refusals, in their order: the module has resources; there would be over 1,024 objects or over 65,536 pages; the
/// file would have over 16,777,216 bytes.
pub fn bind_res(alloc: Global, m: &Module, items: &[ResItem]) -> Result<Vec<u8>, Fail<BindRefusal>>
    requires read { IsRead m.now }
    requires apart { AreApart items.now }
    ensures { Answers result
        (λ bytes. (bind_refusal m.now.file items.now ≡ None) × (bytes.items ≡ bound_file m.now.file items.now))
        (λ refusal. bind_refusal m.now.file items.now ≡ Some refusal) }
{
    bind_file(alloc, m.file(), m.objects(), items)
}

//! The new object table, page table and fixup page table: the old entries as they stand, and those of the new object.

ghost use Rattle.std.specs.Prelude.{◌≡◌, ◌++◌, ◌<◌, ◌^◌, All, IfOk, OnOk, [], ◌∷◌, drop, take};
ghost use Rattle.lx_model.specs.TableSpelling.{objects_spelling, pages_spelling};
ghost use Rattle.std.specs.List.{repeat};
ghost use Rattle.res_model.specs.Bound.{base_above, new_object, new_page, new_pages, object_table, page_table, fixup_table};
ghost use Rattle.res_bind.specs.Numbers.{IsPlanOf};

use crate::plan::Plan;
use crate::units::up_to_unit;
use lx_head::{write_objects, write_pages};
use lx_model::{OBJECT_ENTRY_LEN, PAGE_ENTRY_LEN};
use lx_types::{BASE_UNIT, Bytes, NoMemory, ObjHead, PAGE_SIZE, PageHead, PageKind};
use res_model::RESOURCE_OBJECT_FLAGS;
use std::alloc::Global;

/// The last base.
const LAST_BASE: u64 = 0xFFFF_0000;

// The least base that is not below the end of any object, or 0 where there is none.
#[tactic(auto, using(crate::proofs::Sizes::ends_turn, crate::proofs::Sizes::ends_end, crate::proofs::Multiples::unit_near))]
fn base_above(objects: &[ObjHead]) -> u32
    ensures { result ≡ base_above objects.now }
{
    let mut end: u64 = 0;
    for object in objects {
        end = end.max(u64::from(object.base) + u64::from(object.size));
    }
    let base = up_to_unit(end, u64::from(BASE_UNIT));
    if base > LAST_BASE { 0 } else { base as u32 }
}

#[tactic(auto, unfolding(res_model::specs::Bound::new_object))]
fn new_object(plan: &Plan<'_>) -> ObjHead
    requires { IsPlanOf plan.now.file.now plan.now.tables plan.now.objects.now plan.now.items.now plan.now.layout }
    ensures { result ≡ new_object plan.now.file.now plan.now.items.now }
{
    let layout = plan.layout;
    ObjHead {
        size: layout.size,
        base: base_above(plan.objects),
        flags: RESOURCE_OBJECT_FLAGS,
        first: if layout.pages == 0 {
            0
        } else {
            plan.tables.pages + 1
        },
        count: layout.pages,
    }
}

// The bytes of a file from a place on. Past the file's end there are none.
fn from_place(file: &[u8], at: u64) -> &[u8]
    ensures { result.now ≡ drop at file.now }
{
    if at < file.len() as u64 {
        &file[at as usize..]
    } else {
        &file[file.len()..]
    }
}

// So many bytes of a file from a place on, as far as they are there.
fn part(file: &[u8], at: u64, len: usize) -> &[u8]
    ensures { result.now ≡ take len (drop at file.now) }
{
    let rest = from_place(file, at);
    rest.get(..len).unwrap_or(rest)
}

fn object_entry(alloc: Global, plan: &Plan<'_>) -> Result<Bytes, NoMemory>
    requires { IsPlanOf plan.now.file.now plan.now.tables plan.now.objects.now plan.now.items.now plan.now.layout }
    ensures { IfOk result (λ bytes. bytes ≡ objects_spelling (new_object plan.now.file.now plan.now.items.now ∷ [])) }
{
    write_objects(alloc, &[new_object(plan)])
}

/// Appends the object table with one object more.
pub fn push_objects(alloc: Global, out: &mut Vec<u8>, plan: &Plan<'_>) -> Result<(), NoMemory>
    requires { IsPlanOf plan.now.file.now plan.now.tables plan.now.objects.now plan.now.items.now plan.now.layout }
    ensures { OnOk result (out.new.items ≡ out.old.items ++ object_table plan.now.file.now plan.now.items.now) }
{
    let count = plan.tables.objects as usize;
    out.extend_from_slice(part(
        plan.file,
        plan.tables.object_table,
        OBJECT_ENTRY_LEN * count,
    ))?;
    let entry = object_entry(alloc, plan)?;
    Ok(out.extend_from_slice(entry.as_slice())?)
}

// Page k of the new object.
#[tactic(auto, unfolding(res_model::specs::Bound::new_page))]
fn new_page(plan: &Plan<'_>, k: u32) -> PageHead
    requires plan { IsPlanOf plan.now.file.now plan.now.tables plan.now.objects.now plan.now.items.now plan.now.layout }
    requires there { k < plan.now.layout.pages }
    ensures is { result ≡ new_page plan.now.file.now plan.now.items.now k }
    ensures short { result.len < 2 ^ 16 }
{
    let layout = plan.layout;
    let begin = k * PAGE_SIZE;
    PageHead {
        kind: PageKind::Plain,
        at: (layout.contents - plan.tables.data_pages + begin) / plan.tables.page_unit,
        len: u32::min(layout.size - begin, PAGE_SIZE),
    }
}

#[tactic(auto, unfolding(res_model::specs::Bound::new_pages))]
fn new_pages(alloc: Global, plan: &Plan<'_>) -> Result<Vec<PageHead>, NoMemory>
    requires { IsPlanOf plan.now.file.now plan.now.tables plan.now.objects.now plan.now.items.now plan.now.layout }
    ensures is { IfOk result (λ pages. pages.items ≡ new_pages plan.now.file.now plan.now.items.now) }
    ensures short { IfOk result (λ pages. All (λ p. p.len < 2 ^ 16) pages.items) }
{
    let mut pages = Vec::new(alloc);
    for k in 0..plan.layout.pages {
        pages.push(new_page(plan, k))?;
    }
    Ok(pages)
}

fn page_entries(alloc: Global, plan: &Plan<'_>) -> Result<Bytes, NoMemory>
    requires { IsPlanOf plan.now.file.now plan.now.tables plan.now.objects.now plan.now.items.now plan.now.layout }
    ensures { IfOk result (λ bytes. bytes ≡ pages_spelling (new_pages plan.now.file.now plan.now.items.now)) }
{
    let pages = new_pages(alloc, plan)?;
    write_pages(alloc, pages.as_slice())
}

/// Appends the page table with the pages of the new object.
pub fn push_pages(alloc: Global, out: &mut Vec<u8>, plan: &Plan<'_>) -> Result<(), NoMemory>
    requires { IsPlanOf plan.now.file.now plan.now.tables plan.now.objects.now plan.now.items.now plan.now.layout }
    ensures { OnOk result (out.new.items ≡ out.old.items ++ page_table plan.now.file.now plan.now.items.now) }
{
    let count = plan.tables.pages as usize;
    out.extend_from_slice(part(plan.file, plan.tables.page_table, PAGE_ENTRY_LEN * count))?;
    let entry = page_entries(alloc, plan)?;
    Ok(out.extend_from_slice(entry.as_slice())?)
}

// Appends the same bytes so many times.
fn push_again(out: &mut Vec<u8>, bytes: &[u8], count: u32) -> Result<(), NoMemory>
    ensures { OnOk result (out.new.items ≡ out.old.items ++ repeat count bytes.now) }
{
    for _ in 0..count {
        out.extend_from_slice(bytes)?;
    }
    Ok(())
}

/// Appends the fixup page table, in which the new pages have no records; a module without records has no such table.
#[tactic(auto, unfolding(res_model::specs::Bound::fixup_table))]
pub fn push_fixups(out: &mut Vec<u8>, plan: &Plan<'_>) -> Result<(), NoMemory>
    requires { IsPlanOf plan.now.file.now plan.now.tables plan.now.objects.now plan.now.items.now plan.now.layout }
    ensures { OnOk result (out.new.items ≡ out.old.items ++ fixup_table plan.now.file.now plan.now.layout.pages) }
{
    if !plan.tables.has_records {
        return Ok(());
    }
    let count = plan.tables.pages as usize;
    let table = plan.tables.fixup_pages;
    out.extend_from_slice(part(plan.file, table, 4 * (count + 1)))?;
    let last = part(plan.file, table + 4 * count as u64, 4);
    push_again(out, last, plan.layout.pages)
}

//! Where everything stands in the bound file.

ghost use Rattle.std.specs.Prelude.{◌≡◌, ◌+◌, ◌<◌, ◌≤◌, ◌^◌, MatchOption, length, nat_lt};
ghost use Rattle.res_model.specs.Placed.{aligned};
ghost use Rattle.res_bind.specs.Numbers.{AreTablesOf};
ghost use Rattle.res_model.specs.Layout.{data_place};
ghost use Rattle.res_bind.specs.Layouts.{IsSizeOf, GivesLayout};

use crate::header::OldTables;
use crate::units::{aligned, up_to_unit};
use lx_model::{OBJECT_ENTRY_LEN, PAGE_ENTRY_LEN, RESOURCE_ENTRY_LEN};
use lx_types::{MAX_FILE, MAX_OBJECTS, MAX_PAGES, PAGE_SIZE};
use res_model::{BindRefusal, ResItem};

/// The new object's size and pages, and the places in the file where its bytes and the new tables begin.
#[derive(Clone, Copy)]
pub struct Layout {
    pub size: u32,
    pub pages: u32,
    pub contents: u32,
    pub objects: u32,
    pub page_table: u32,
    pub fixups: u32,
    pub resources: u32,
}

// Where an item that stands after so many bytes of the object ends, where that has 32 bits.
fn end_after(end: u32, item: &ResItem) -> Option<u32>
    ensures { MatchOption result
        (2 ^ 32 ≤ aligned end + length item.now.bytes) (λ n. n ≡ aligned end + length item.now.bytes) }
{
    let len = u32::try_from(item.bytes.as_slice().len()).ok()?;
    u32::try_from(aligned(u64::from(end)) + u64::from(len)).ok()
}

// The size of an object with these items, where it has 32 bits.
fn size_of(items: &[ResItem]) -> Option<u32>
    ensures { IsSizeOf items.now result }
{
    let mut end: u32 = 0;
    for item in items {
        match end_after(end, item) {
            Some(after) => end = after,
            None => return None,
        }
    }
    Some(end)
}

// Where the data of so many new pages begins.
#[tactic(auto, using(crate::proofs::Multiples::unit_near))]
fn data_place(file: &[u8], old: &OldTables, pages: u32) -> u64
    requires { AreTablesOf file.now old.now }
    ensures is { result ≡ data_place file.now pages }
    ensures small { result < 2 ^ 34 }
{
    let first = u64::from(old.data_pages);
    let end = first.max(file.len() as u64);
    if pages == 0 {
        return end;
    }
    first + up_to_unit(end - first, u64::from(old.page_unit))
}

// Whether a file of so many bytes is too large.
pub fn is_too_large(bytes: u64) -> bool
    ensures { result ≡ nat_lt MAX_FILE bytes }
{
    bytes > u64::from(MAX_FILE)
}

/// The layout of a file with these items, or what is refused.
#[tactic(auto, unfolding(res_model::specs::Refusal::layout_refusal, res_model::specs::Layout::objects_place, res_model::specs::Layout::pages_place, res_model::specs::Layout::fixups_place, res_model::specs::Layout::resources_place, res_model::specs::Layout::end_place))]
pub fn layout_of(file: &[u8], old: &OldTables, items: &[ResItem]) -> Result<Layout, BindRefusal>
    requires { AreTablesOf file.now old.now }
    ensures { GivesLayout file.now items.now result }
{
    let Some(size) = size_of(items) else {
        return Err(BindRefusal::TooMany);
    };
    let pages = size.div_ceil(PAGE_SIZE);
    if old.objects >= MAX_OBJECTS || old.pages + pages > MAX_PAGES {
        return Err(BindRefusal::TooMany);
    }
    let contents = data_place(file, old, pages);
    let objects = contents + u64::from(size);
    let page_table = objects + OBJECT_ENTRY_LEN as u64 * u64::from(old.objects + 1);
    let fixups = page_table + PAGE_ENTRY_LEN as u64 * u64::from(old.pages + pages);
    let resources = if old.has_records {
        fixups + 4 * u64::from(old.pages + pages + 1)
    } else {
        fixups
    };
    let count = items.len() as u64;
    if is_too_large(count) || is_too_large(resources + RESOURCE_ENTRY_LEN as u64 * count) {
        return Err(BindRefusal::TooLarge);
    }
    Ok(Layout {
        size,
        pages,
        contents: contents as u32,
        objects: objects as u32,
        page_table: page_table as u32,
        fixups: fixups as u32,
        resources: resources as u32,
    })
}

//! The bytes of objects, page by page.

ghost use Rattle.std.specs.Prelude.{◌≡◌, ◌<◌, ◌++◌, IfOk, OnOk, length, map, take};
ghost use Rattle.std.specs.List.{range_with_len};
ghost use Rattle.lx_types.specs.Parts.{object_of};
ghost use Rattle.lx_types.specs.Sound.{IsNumberOf};
ghost use Rattle.lx_model.specs.Library.{module_of};
ghost use Rattle.lx_model.specs.ModuleBytes.{FixedByte};
ghost use Rattle.image_model.specs.LinkLaws as links;
ghost use Rattle.image_pages.specs.Alone.{rows_of};

use link_model::LaidObject;
use lx_types::{
    Bases, Bytes, NoMemory, ObjHead, PAGE_LEN, PAGE_SIZE, PageBytes, PageId, Seq, count,
};
use module_pages::ModulePages;
use page_fix::{OwnLibrary, Steps};
use std::alloc::Global;
use std::sync::ledger::{Blank, Ledger};

// Adds the bytes of a page, of which the object has so many from the page's begin on.
fn push_page(row: &mut Vec<u8>, page: &PageBytes, left: u32) -> Result<(), NoMemory>
    ensures { OnOk result (row.new.items ≡ row.old.items ++ take left page.now) }
{
    let count = (left as usize).min(page.len());
    row.extend_from_slice(&page[..count])?;
    Ok(())
}

// The bytes of an object, with its fixups. One buffer serves all its pages.
fn row_of<L: Ledger>(
    alloc: Global,
    pages: &ModulePages<'_>,
    object: u32,
    size: u32,
    steps: &mut Steps<L>,
) -> Result<Bytes, NoMemory>
    requires object { IsNumberOf object (length (module_of pages.now.library pages.now.«module»).objects) }
    requires size { size ≡ (object_of (module_of pages.now.library pages.now.«module») object).size }
    ensures { IfOk result (λ row. row ≡ map (FixedByte pages.now.library pages.now.«module» pages.now.bases object) (range_with_len 0 size)) }
{
    let mut row = Vec::with_capacity(alloc, size as usize)?;
    let mut buffer = Box::new(alloc, [0; PAGE_LEN])?;
    for page in 0..size.div_ceil(PAGE_SIZE) {
        buffer = pages.page(PageId { object, page }, buffer, steps);
        push_page(&mut row, &buffer, size - page * PAGE_SIZE)?;
    }
    Ok(Seq::from_vec(row))
}

// An object of a file, as a layout has it.
fn laid(object: &ObjHead) -> LaidObject
    ensures { result ≡ links.laid object.now }
{
    LaidObject {
        size: object.size,
        base: object.base,
        flags: object.flags,
    }
}

/// The objects of the first module of a library that nobody shares, each with its bytes at these bases. Nobody counts the
/// record sources.
pub fn rows_of<L: Ledger>(
    alloc: Global,
    lib: &OwnLibrary,
    bases: &Bases,
    blank: Blank,
) -> Result<Vec<(LaidObject, Bytes)>, NoMemory>
    requires name { blank.name ≡ L.name }
    requires parts { blank.parts ≡ L.parts }
    requires some { 0 < blank.parts }
    requires first { 0 < length lib.now }
    ensures { IfOk result (λ rows. rows.items ≡ rows_of lib.now bases.now) }
{
    let mut steps = Steps::<L>::of(blank);
    let pages = ModulePages::of(lib, bases, 0);
    let mut rows = Vec::new(alloc);
    for (index, object) in lib.library().module(0).objects().iter().enumerate() {
        let place = count(index + 1)?;
        let row = row_of(alloc, &pages, place, object.size, &mut steps)?;
        rows.push((laid(object), row))?;
    }
    Ok(rows)
}

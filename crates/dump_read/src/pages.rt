//! Objects with their pages, and pages with their fixups.

ghost use Rattle.std.specs.Prelude.{◌≡◌, [], IfOk};
ghost use Rattle.dump_model.specs.Bounds.{IsObject, IsPage};
ghost use Rattle.dump_model.specs.Dumps.{object_lines, page_lines};
ghost use Rattle.dump_read.specs.Taken.{Reads};
ghost use Rattle.dump_read.specs.Sequences.{AllIn, CountIn, list_opens, list_text};
ghost use Rattle.dump_read.specs.Lists.{object_opens, objects_open, page_opens};

use crate::fixups::fixes;
use crate::objects::{object_head, page_head};
use crate::reader::Reader;
use dump_model::{ListedObject, ListedPage};
use lx_types::{NoMemory, Seq};
use std::alloc::Global;

// The lines of page `page` of object `object`.
fn page(
    alloc: Global,
    reader: &mut Reader<'_>,
    object: u64,
    page: u64,
) -> Result<ListedPage, NoMemory>
    ensures { IfOk result (λ p. Reads (λ q. page_lines object (page, q)) IsPage page_opens p reader.old reader.new) }
{
    let head = page_head(reader, object, page);
    let fixes = fixes(alloc, reader, object, page)?;
    Ok(ListedPage {
        kind: head.kind,
        at: head.at,
        len: head.len,
        fixes,
    })
}

// The lines of so many pages of an object.
fn pages(
    alloc: Global,
    reader: &mut Reader<'_>,
    object: u64,
    count: u32,
) -> Result<Seq<ListedPage>, NoMemory>
    ensures { IfOk result (λ pages. Reads (list_text (page_lines object) 0) (CountIn IsPage count) (list_opens [] page_opens) pages reader.old reader.new) }
{
    let mut pages = Vec::new(alloc);
    for number in 0..count {
        if reader.has_stopped() {
            return Ok(Seq::from_vec(pages));
        }
        pages.push(page(alloc, reader, object, u64::from(number))?)?;
    }
    Ok(Seq::from_vec(pages))
}

// The lines of object `number`.
fn object(alloc: Global, reader: &mut Reader<'_>, number: u64) -> Result<ListedObject, NoMemory>
    ensures { IfOk result (λ o. Reads (λ q. object_lines (number, q)) IsObject object_opens o reader.old reader.new) }
{
    let head = object_head(reader, number);
    let pages = pages(alloc, reader, number, head.count)?;
    Ok(ListedObject {
        size: head.size,
        base: head.base,
        flags: head.flags,
        pages,
    })
}

/// The lines of all objects.
pub(crate) fn objects(alloc: Global, reader: &mut Reader<'_>) -> Result<Seq<ListedObject>, NoMemory>
    ensures { IfOk result (λ objects. Reads (list_text object_lines 1) (AllIn IsObject) objects_open objects reader.old reader.new) }
{
    let mut objects = Vec::new(alloc);
    let mut number = 0u64;
    while reader.is_next(b"object ") {
        number += 1;
        objects.push(object(alloc, reader, number)?)?;
    }
    Ok(Seq::from_vec(objects))
}

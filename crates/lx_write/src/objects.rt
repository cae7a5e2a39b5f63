//! The object table ("Object Table").

ghost use Rattle.std.specs.Prelude.{◌≡◌, IfOk};
ghost use Rattle.link_model.specs.Records.{page_count};
ghost use Rattle.lx_model.specs.TableSpelling.{objects_spelling};
ghost use Rattle.image_model.specs.ObjectTable.{object_head, object_heads_from};

use link_model::LaidObject;
use lx_head::write_objects;
use lx_types::{Bytes, NoMemory, ObjHead, PAGE_SIZE};
use std::alloc::Global;

/// How many pages so many bytes take.
pub fn page_count(size: u32) -> u32
    ensures { result ≡ page_count size }
{
    size.div_ceil(PAGE_SIZE)
}

// An object's entry, where this is the first page of the page table that is not yet given to one.
fn object_head(first: u32, object: &LaidObject) -> ObjHead
    ensures { result ≡ object_head first object.now }
{
    let count = page_count(object.size);
    ObjHead {
        size: object.size,
        base: object.base,
        flags: object.flags,
        first: if count == 0 { 0 } else { first },
        count,
    }
}

// The entries of objects, whose pages stand one after the other.
fn object_heads(alloc: Global, objects: &[LaidObject]) -> Result<Vec<ObjHead>, NoMemory>
    ensures { IfOk result (λ heads. heads.items ≡ object_heads_from 1 objects.now) }
{
    let mut heads = Vec::new(alloc);
    let mut first: u32 = 1;
    for object in objects {
        let head = object_head(first, object);
        heads.push(head)?;
        let Some(next) = first.checked_add(head.count) else {
            return Err(NoMemory);
        };
        first = next;
    }
    Ok(heads)
}

/// The object table.
pub fn object_table(alloc: Global, objects: &[LaidObject]) -> Result<Bytes, NoMemory>
    ensures { IfOk result (λ table. table ≡ objects_spelling (object_heads_from 1 objects.now)) }
{
    let heads = object_heads(alloc, objects)?;
    write_objects(alloc, &heads)
}

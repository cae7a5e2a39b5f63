//! The object table ("Object Table").

ghost use Rattle.std.specs.Prelude.{◌≡◌, ◌<◌, ◌^◌};
ghost use Rattle.lx_model.specs.Tables.{object_entry, lacks_pages, object_place, object_fault, objects_of, objects_fault};
ghost use Rattle.lx_read.specs.Headers.{IsHeaderOf};
ghost use Rattle.lx_types.specs.Answers.{as_is, if_said};
ghost use Rattle.lx_model.specs.Judging.{Judges};

use crate::fields::{fault, said, whole_doublewords};
use crate::header::Header;
use lx_head::object_at;
use lx_model::OBJECT_ENTRY_LEN;
use lx_types::{Fail, LxKind, LxRefusal, ObjHead, Seq};
use std::alloc::Global;

/// How many doublewords an entry has.
const DOUBLEWORDS: u64 = 6;

/// How many bytes of an entry stand up to the end of its page count.
const COUNTED_LEN: u64 = 20;

// Whether an object has pages that are not in a page table of so many entries.
fn lacks_pages(pages: u32, object: &ObjHead) -> bool
    ensures { result ≡ lacks_pages pages object.now }
{
    let end = u64::from(object.first) + u64::from(object.count);
    object.count != 0 && (object.first == 0 || u64::from(pages) + 1 < end)
}

// Entry k of the table, from 0. An object whose pages are not there is told before what is short
// after its page count.
fn read_object(file: &[u8], header: &Header, k: u32) -> Result<ObjHead, LxRefusal>
    requires header { IsHeaderOf file.now header.now }
    ensures { Judges as_is result (object_entry file.now (object_place file.now k)) (object_fault file.now k) }
{
    let at = header.object_table + OBJECT_ENTRY_LEN as u64 * u64::from(k);
    let object = object_at(file, at as usize);
    let has_count = at + COUNTED_LEN <= file.len() as u64;
    if has_count && lacks_pages(header.pages, &object) {
        return Err(fault(LxKind::Object, at));
    }
    whole_doublewords(file, at, DOUBLEWORDS)?;
    Ok(object)
}

/// The object table. A refusal is the table's first fault: a field that passes the file's end
/// (`Short`), or an object with pages that the page table does not have (`Object`, at the entry).
pub fn read_objects(
    alloc: Global,
    file: &[u8],
    header: &Header,
) -> Result<Seq<ObjHead>, Fail<LxRefusal>>
    requires { IsHeaderOf file.now header.now }
    ensures { Judges if_said result (objects_of file.now) (objects_fault file.now) }
{
    let mut objects = Seq::new(alloc);
    for k in 0..header.objects {
        objects.push(said(read_object(file, header, k))?)?;
    }
    Ok(objects)
}

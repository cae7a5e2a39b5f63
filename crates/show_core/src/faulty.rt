//! Object files and libraries with a fault: what stands before it.

ghost use Rattle.std.specs.Prelude.{[], IfOk};
ghost use Rattle.show_model.specs.Outlines.{IsOutline};

use crate::comments::add_records;
use crate::cut::{cut_library, cut_object, place_of};
use crate::libraries::{add_header, add_members, page_size};
use crate::objects::add_object;
use crate::outline::add_list;
use crate::printing::print_outline;
use crate::records::records_before;
use lx_types::{Fail, NoMemory};
use obj_types::OmfRefusal;
use omf_files::{read_library, read_object};
use show_model::Part;
use std::alloc::Global;

// Adds what an object file says, where it has no fault.
fn add_read_object(alloc: Global, out: &mut Vec<Part>, bytes: &[u8]) -> Result<(), NoMemory> {
    match read_object(alloc, bytes) {
        Ok(m) => add_object(alloc, out, &m),
        Err(Fail::Said(_)) => Ok(()),
        Err(Fail::NoMemory) => Err(NoMemory),
    }
}

// Adds what a library says, where it has no fault.
fn add_read_library(alloc: Global, out: &mut Vec<Part>, bytes: &[u8]) -> Result<(), NoMemory> {
    let modules = match read_library(alloc, bytes) {
        Ok(modules) => modules,
        Err(Fail::Said(_)) => return Ok(()),
        Err(Fail::NoMemory) => return Err(NoMemory),
    };
    add_list(alloc, out, "members", modules.as_slice(), &())?;
    add_members(alloc, out, modules.as_slice())
}

/// What is told of an object file with a fault: what the records before it say, and the records.
pub fn faulty_object_text(
    alloc: Global,
    bytes: &[u8],
    refusal: &OmfRefusal,
) -> Result<Vec<u8>, NoMemory>
    ensures { IfOk result (λ text. IsOutline text.items []) }
{
    let records = records_before(alloc, bytes, place_of(refusal), 0)?;
    let cut = cut_object(alloc, bytes, &records, 0)?;
    let mut parts = Vec::new(alloc);
    add_read_object(alloc, &mut parts, &cut)?;
    add_records(alloc, &mut parts, &records)?;
    Ok(print_outline(alloc, &parts, &[], &[])?)
}

/// What is told of a library with a fault: the modules before it, of its own module what the records before it say, and the records.
pub fn faulty_library_text(
    alloc: Global,
    bytes: &[u8],
    refusal: &OmfRefusal,
) -> Result<Vec<u8>, NoMemory>
    ensures { IfOk result (λ text. IsOutline text.items []) }
{
    let page = page_size(bytes);
    let records = records_before(alloc, bytes, place_of(refusal), page)?;
    let cut = cut_library(alloc, bytes, &records, page)?;
    let mut parts = Vec::new(alloc);
    add_header(alloc, &mut parts, bytes)?;
    add_read_library(alloc, &mut parts, &cut)?;
    add_records(alloc, &mut parts, &records)?;
    Ok(print_outline(alloc, &parts, &[], &[])?)
}

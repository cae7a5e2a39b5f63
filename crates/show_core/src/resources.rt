//! Resource files (docs/FORMATS.md, "Resource files").

ghost use Rattle.std.specs.Prelude.{◌<◌, ◌^◌, [], length, IfOk};
ghost use Rattle.show_model.specs.Lists.{resource_lists};
ghost use Rattle.show_model.specs.Outlines.{IsOutline};

use crate::line;
use crate::outline::{Line, Told, add_list};
use crate::printing::print_outline;
use line_words::Word;
use lx_fields::doubleword_at;
use lx_types::{Fail, NoMemory};
use res_file::read_res;
use res_model::{FIELDS, ResItem, ResRefusal};
use show_model::Part;
use std::alloc::Global;

impl Told<()> for ResItem {
    fn line<'x>(&'x self, alloc: Global, _number: u64, _context: &'x ()) -> Line {
        let (ty, id) = (u32::from(self.ty), u32::from(self.id));
        let (flags, len) = (u32::from(self.flags), self.bytes.as_slice().len() as u64);
        line!(alloc; Text b"type", Number ty, Text b"identifier", Number id, Text b"flags", Hex flags, Text b"length", Count len)
    }
}

/// What is told of the items of a resource file.
pub fn resources_text(alloc: Global, items: &[ResItem]) -> Result<Vec<u8>, NoMemory>
    ensures { IfOk result (λ text. IsOutline text.items (resource_lists items.now)) }
{
    let mut listed = Vec::new(alloc);
    add_list(alloc, &mut listed, "resources", items, &())?;
    Ok(print_outline(alloc, &[], &listed, &[])?)
}

// The place of the item in which a place stands, by the lengths that the items before it have.
fn item_with(bytes: &[u8], place: usize) -> usize
    requires { length bytes.now < 2 ^ 32 }
{
    let mut at = 0;
    'items: while at < bytes.len() {
        let next = at + FIELDS + doubleword_at(bytes, at + 8) as usize;
        if next > place || next > bytes.len() {
            break;
        }
        at = next;
    }
    at
}

// Adds the items of a resource file without fault.
fn add_read(alloc: Global, out: &mut Vec<Part>, bytes: &[u8]) -> Result<(), NoMemory> {
    match read_res(alloc, bytes) {
        Ok(items) => add_list(alloc, out, "resources", &items, &()),
        Err(Fail::Said(_)) => Ok(()),
        Err(Fail::NoMemory) => Err(NoMemory),
    }
}

/// What is told of a resource file with a fault: the items before it.
pub fn faulty_resources_text(
    alloc: Global,
    bytes: &[u8],
    refusal: ResRefusal,
) -> Result<Vec<u8>, NoMemory>
    requires { length bytes.now < 2 ^ 32 }
    ensures { IfOk result (λ text. IsOutline text.items []) }
{
    let (ResRefusal::Short { at } | ResRefusal::BadItem { at } | ResRefusal::Twice { at }) =
        refusal;
    let end = item_with(bytes, at);
    let front = bytes.get(..end).unwrap_or(&[]);
    let mut parts = Vec::new(alloc);
    add_read(alloc, &mut parts, front)?;
    Ok(print_outline(alloc, &parts, &[], &[])?)
}

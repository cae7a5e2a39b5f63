//! Object files and libraries ("Relocatable Object Module Format", "Microsoft LIB Library Format").

ghost use Rattle.std.specs.Prelude.{◌≡◌, ◌++◌, ◌∷◌, [], IfOk, OnOk};
ghost use Rattle.std.specs.List.{flat_map};
ghost use Rattle.show_model.specs.Lists.{library_lists, object_lists};
ghost use Rattle.show_model.specs.Outlines.{IsOutline, tallies};

use crate::comments::add_records;
use crate::line;
use crate::objects::add_object;
use crate::outline::{Line, Told, add, add_list};
use crate::printing::print_outline;
use crate::records::records_before;
use line_words::Word;
use lx_fields::{doubleword_at, word_at};
use lx_types::NoMemory;
use obj_types::ObjModule;
use show_model::Part;
use std::alloc::Global;

impl Told<()> for ObjModule {
    fn line<'x>(&'x self, alloc: Global, number: u64, _context: &'x ()) -> Line {
        let publics = self.pubs.as_slice().len() as u64;
        line!(alloc; Count number, Text self.name.bytes(), Text b"public names", Count publics)
    }
}

/// How many bytes a page has: as many as the header.
pub fn page_size(bytes: &[u8]) -> usize {
    usize::from(word_at(bytes, 1)) + 3
}

/// What the header says: the page size, and where the dictionary stands.
pub fn add_header(alloc: Global, out: &mut Vec<Part>, bytes: &[u8]) -> Result<(), NoMemory> {
    let (at, blocks) = (doubleword_at(bytes, 3), word_at(bytes, 7));
    let dictionary = if blocks == 0 {
        line!(alloc; Text b"no dictionary")?
    } else {
        line!(alloc; Text b"dictionary at", Hex at, Text b"blocks", Number u32::from(blocks))?
    };
    let mut lines = Vec::new(alloc);
    lines.push(line!(alloc; Text b"page size", Count page_size(bytes) as u64)?)?;
    lines.push(dictionary)?;
    add(alloc, out, "library", lines)
}

/// Adds all lists of the modules, one after the other.
pub fn add_members(
    alloc: Global,
    out: &mut Vec<Part>,
    modules: &[ObjModule],
) -> Result<(), NoMemory>
    ensures { OnOk result (tallies out.new.items ≡ tallies out.old.items ++ flat_map object_lists modules.now) }
{
    for m in modules {
        add_object(alloc, out, m)?;
    }
    Ok(())
}

/// What is told of an object module that was read.
pub fn object_text(alloc: Global, bytes: &[u8], m: &ObjModule) -> Result<Vec<u8>, NoMemory>
    ensures { IfOk result (λ text. IsOutline text.items (object_lists m.now)) }
{
    let mut listed = Vec::new(alloc);
    add_object(alloc, &mut listed, m)?;
    let mut after = Vec::new(alloc);
    let records = records_before(alloc, bytes, bytes.len(), 0)?;
    add_records(alloc, &mut after, &records)?;
    Ok(print_outline(alloc, &[], &listed, &after)?)
}

/// What is told of a library that was read.
pub fn library_text(alloc: Global, bytes: &[u8], modules: &[ObjModule]) -> Result<Vec<u8>, NoMemory>
    ensures { IfOk result (λ text. IsOutline text.items (library_lists modules.now)) }
{
    let mut before = Vec::new(alloc);
    add_header(alloc, &mut before, bytes)?;
    let mut listed = Vec::new(alloc);
    add_list(alloc, &mut listed, "members", modules, &())?;
    add_members(alloc, &mut listed, modules)?;
    let mut after = Vec::new(alloc);
    let records = records_before(alloc, bytes, bytes.len(), page_size(bytes))?;
    add_records(alloc, &mut after, &records)?;
    Ok(print_outline(alloc, &before, &listed, &after)?)
}

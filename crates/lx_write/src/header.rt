//! The header of a file ("LX Header").

ghost use Rattle.std.specs.Prelude.{◌≡◌, ◌+◌, ◌<◌, ◌^◌, IfSome, length, bit_or, not};
ghost use Rattle.lx_types.specs.declared.parts.TheConstants.{MODULE_LIBRARY};
ghost use Rattle.link_model.specs.Order.{is_program};
ghost use Rattle.link_model.specs.Flags.{flag};
ghost use Rattle.image_model.specs.File.{header_fields_of};
ghost use Rattle.lx_write.specs.Value.{flags_of, image_value};
ghost use Rattle.lx_write.specs.Sections.{sections_value, ArePlaces};

use crate::image::Image;
use crate::sections::Sections;
use lx_model::HEADER_LEN;
use lx_model::header_fields::{
    AUTO_DATA_OBJECT, CPU_TYPE, DATA_PAGES, EIP, EIP_OBJECT, ENTRY_TABLE, ESP, ESP_OBJECT,
    FIXUP_PAGE_TABLE, FIXUP_RECORD_TABLE, FIXUP_SECTION_SIZE, HEAP_SIZE, IMPORT_MODULE_COUNT,
    IMPORT_MODULE_TABLE, IMPORT_PROCEDURE_TABLE, ITERATED_PAGES, LOADER_SECTION_SIZE, LX_SIGNATURE,
    MODULE_FLAGS, MODULE_PAGES, NONRESIDENT_NAME_LENGTH, NONRESIDENT_NAME_TABLE, OBJECT_COUNT,
    OBJECT_PAGE_TABLE, OBJECT_TABLE, PAGE_SIZE_FIELD, RESIDENT_NAME_TABLE, SIGNATURE,
};
use lx_types::{Bytes, MODULE_LIBRARY, PAGE_SIZE};
use obj_types::ModKind;

/// An 80386, and OS/2.
const CPU_AND_SYSTEM: u32 = 0x1_0002;

/// Where the object table stands: after the header, which is at the file's start.
const OBJECTS_AT: u32 = HEADER_LEN as u32;

/// Where sections stand in the file, and where the file ends.
#[derive(Clone, Copy)]
pub struct Places {
    pub pages: u32,
    pub residents: u32,
    pub entries: u32,
    pub spans: u32,
    pub records: u32,
    pub imports: u32,
    pub procs: u32,
    pub contents: u32,
    pub others: u32,
    pub end: u32,
}

// A count as a doubleword; none where it has more than 32 bits.
fn doubleword_of(count: usize) -> Option<u32>
    ensures { IfSome result (λ n. n ≡ count) }
{
    u32::try_from(count).ok()
}

// Where a section ends that begins at a place; none where the end has no place.
fn end_of(at: u32, section: &Bytes) -> Option<u32>
    ensures { IfSome result (λ end. end ≡ at + length section.now) }
{
    at.checked_add(doubleword_of(section.as_slice().len())?)
}

/// The places of sections; none where the file has 2^32 bytes or more.
pub fn places_of(s: &Sections) -> Option<Places>
    ensures places { IfSome result (λ p. ArePlaces (sections_value s.now) p) }
    ensures short { IfSome result (λ p. p.end < 2 ^ 32) }
{
    let pages = end_of(OBJECTS_AT, &s.objects)?;
    let residents = end_of(pages, &s.pages)?;
    let entries = end_of(residents, &s.residents)?;
    let spans = end_of(entries, &s.entries)?;
    let records = end_of(spans, &s.spans)?;
    let imports = end_of(records, &s.records)?;
    let procs = end_of(imports, &s.imports)?;
    let contents = end_of(procs, &s.procs)?;
    let others = end_of(contents, &s.contents)?;
    let end = end_of(others, &s.others)?;
    Some(Places {
        pages,
        residents,
        entries,
        spans,
        records,
        imports,
        procs,
        contents,
        others,
        end,
    })
}

// The module flags: a library has its own.
fn module_flags(image: &Image) -> u32
    ensures { result ≡ flags_of image.now }
{
    match image.kind {
        ModKind::Program => image.flags,
        ModKind::Library => MODULE_LIBRARY | image.flags,
    }
}

/// The doublewords at 00h to A8h of the header; none where a count is 2^32 or more.
pub fn fields_of(image: &Image, s: &Sections, at: &Places) -> Option<[u32; 43]>
    requires pages { s.now.page_count ≡ length (image_value image.now).pages }
    requires places { ArePlaces (sections_value s.now) at.now }
    ensures { IfSome result (λ fields. fields ≡ header_fields_of (image_value image.now) (sections_value s.now)) }
{
    let pages = doubleword_of(s.page_count)?;
    let objects = doubleword_of(image.objects.as_slice().len())?;
    let imports = doubleword_of(image.imports.as_slice().len())?;
    let (start_object, start) = image.start.unwrap_or((0, 0));
    let (stack_object, stack) = image.stack.unwrap_or((0, 0));
    let mut fields = [0; 43];
    // with little-endian bytes and words
    fields[SIGNATURE as usize / 4] = LX_SIGNATURE as u32;
    fields[CPU_TYPE as usize / 4] = CPU_AND_SYSTEM;
    fields[MODULE_FLAGS as usize / 4] = module_flags(image);
    fields[MODULE_PAGES as usize / 4] = pages;
    fields[EIP_OBJECT as usize / 4] = start_object;
    fields[EIP as usize / 4] = start;
    fields[ESP_OBJECT as usize / 4] = stack_object;
    fields[ESP as usize / 4] = stack;
    fields[PAGE_SIZE_FIELD as usize / 4] = PAGE_SIZE;
    fields[FIXUP_SECTION_SIZE as usize / 4] = at.contents - at.spans;
    fields[LOADER_SECTION_SIZE as usize / 4] = at.spans - OBJECTS_AT;
    fields[OBJECT_TABLE as usize / 4] = OBJECTS_AT;
    fields[OBJECT_COUNT as usize / 4] = objects;
    fields[OBJECT_PAGE_TABLE as usize / 4] = at.pages;
    fields[ITERATED_PAGES as usize / 4] = at.contents;
    fields[RESIDENT_NAME_TABLE as usize / 4] = at.residents;
    fields[ENTRY_TABLE as usize / 4] = at.entries;
    fields[FIXUP_PAGE_TABLE as usize / 4] = at.spans;
    fields[FIXUP_RECORD_TABLE as usize / 4] = at.records;
    fields[IMPORT_MODULE_TABLE as usize / 4] = at.imports;
    fields[IMPORT_MODULE_COUNT as usize / 4] = imports;
    fields[IMPORT_PROCEDURE_TABLE as usize / 4] = at.procs;
    fields[DATA_PAGES as usize / 4] = at.contents;
    fields[NONRESIDENT_NAME_TABLE as usize / 4] = at.others;
    fields[NONRESIDENT_NAME_LENGTH as usize / 4] = at.end - at.others;
    fields[AUTO_DATA_OBJECT as usize / 4] = image.auto;
    fields[HEAP_SIZE as usize / 4] = image.heap;
    Some(fields)
}

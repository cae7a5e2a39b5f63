//! An LX file, from what stands in its tables. ("32-bit Linear eXecutable Module Format": "LX Header".)

use lx_model::header_fields::{
    CPU_TYPE, DATA_PAGES, ENTRY_TABLE, FIXUP_PAGE_TABLE, FIXUP_RECORD_TABLE, IMPORT_MODULE_COUNT,
    IMPORT_MODULE_TABLE, IMPORT_PROCEDURE_TABLE, ITERATED_PAGES, LX_SIGNATURE, MODULE_FLAGS,
    MODULE_PAGES, OBJECT_COUNT, OBJECT_PAGE_TABLE, OBJECT_TABLE, PAGE_SIZE_FIELD,
    RESIDENT_NAME_TABLE, SIGNATURE,
};
use lx_model::{HEADER_LEN, OBJECT_ENTRY_LEN, PAGE_ENTRY_LEN};
use lx_types::{MODULE_LIBRARY, NoMemory, ObjHead, PAGE_SIZE, count};
use std::alloc::Global;

/// A page of a module: its flags, its data, and its fixup records.
#[derive(Clone, Copy)]
pub struct SamplePage<'a> {
    pub flags: u16,
    pub data: &'a [u8],
    pub records: &'a [u8],
}

/// A library module but for its pages: its tables, as they are to stand in its file.
#[derive(Clone, Copy)]
pub struct Sample<'a> {
    /// The resident names, each with its length and its ordinal. The module's own is the first; the table's end is added.
    pub names: &'a [u8],
    pub objects: &'a [ObjHead],
    /// The bundles of the entry table, without its end.
    pub entries: &'a [u8],
    /// The names of the import modules, each with its length, and how many they are.
    pub imports: &'a [u8],
    pub import_count: u32,
    /// The import procedure table.
    pub procedures: &'a [u8],
}

/// How many bytes the header has, and an entry of each table.
const HEADER: u32 = HEADER_LEN as u32;

const OBJECT: u32 = OBJECT_ENTRY_LEN as u32;

const PAGE: u32 = PAGE_ENTRY_LEN as u32;

const SPAN: u32 = 4;

// Appends the bytes of a doubleword, the lowest first.
fn push_double(out: &mut Vec<u8>, n: u32) -> Result<(), NoMemory> {
    Ok(out.extend_from_slice(&n.to_le_bytes())?)
}

// Appends the bytes of a word.
fn push_word(out: &mut Vec<u8>, n: u16) -> Result<(), NoMemory> {
    Ok(out.extend_from_slice(&n.to_le_bytes())?)
}

// Sets a doubleword of a header.
fn set(header: &mut [u8; HEADER_LEN], at: u8, n: u32) {
    let at = usize::from(at);
    if let Some(field) = header.get_mut(at..at.saturating_add(4)) {
        field.copy_from_slice(&n.to_le_bytes());
    }
}

/// Where the tables stand that have no fixed place.
#[derive(Clone, Copy)]
struct Places {
    page_table: u32,
    names: u32,
    entries: u32,
    spans: u32,
    records: u32,
    imports: u32,
    procedures: u32,
    data: u32,
}

// The tables stand one after the other.
fn places_of(sample: &Sample, pages: &[SamplePage]) -> Result<Places, NoMemory> {
    let objects = count(sample.objects.len())?;
    let count_of_pages = count(pages.len())?;
    let page_table = objects.wrapping_mul(OBJECT).wrapping_add(HEADER);
    let names = count_of_pages.wrapping_mul(PAGE).wrapping_add(page_table);
    let entries = count(sample.names.len())?
        .wrapping_add(1)
        .wrapping_add(names);
    let spans = count(sample.entries.len())?
        .wrapping_add(1)
        .wrapping_add(entries);
    let records = count_of_pages
        .wrapping_add(1)
        .wrapping_mul(SPAN)
        .wrapping_add(spans);
    let mut imports = records;
    for page in pages {
        imports = count(page.records.len())?.wrapping_add(imports);
    }
    let procedures = count(sample.imports.len())?.wrapping_add(imports);
    let data = count(sample.procedures.len())?.wrapping_add(procedures);
    Ok(Places {
        page_table,
        names,
        entries,
        spans,
        records,
        imports,
        procedures,
        data,
    })
}

// The header, without a start and without other names.
fn header_of(sample: &Sample, pages: u32, at: Places) -> Result<[u8; HEADER_LEN], NoMemory> {
    let mut header = [0; HEADER_LEN];
    set(&mut header, SIGNATURE, u32::from(LX_SIGNATURE));
    set(&mut header, CPU_TYPE, 0x0001_0002);
    set(&mut header, MODULE_FLAGS, MODULE_LIBRARY);
    set(&mut header, MODULE_PAGES, pages);
    set(&mut header, PAGE_SIZE_FIELD, PAGE_SIZE);
    set(&mut header, OBJECT_TABLE, HEADER);
    set(&mut header, OBJECT_COUNT, count(sample.objects.len())?);
    set(&mut header, OBJECT_PAGE_TABLE, at.page_table);
    set(&mut header, ITERATED_PAGES, at.data);
    set(&mut header, RESIDENT_NAME_TABLE, at.names);
    set(&mut header, ENTRY_TABLE, at.entries);
    set(&mut header, FIXUP_PAGE_TABLE, at.spans);
    set(&mut header, FIXUP_RECORD_TABLE, at.records);
    set(&mut header, IMPORT_MODULE_TABLE, at.imports);
    set(&mut header, IMPORT_MODULE_COUNT, sample.import_count);
    set(&mut header, IMPORT_PROCEDURE_TABLE, at.procedures);
    set(&mut header, DATA_PAGES, at.data);
    Ok(header)
}

// Appends the object table.
fn push_objects(out: &mut Vec<u8>, objects: &[ObjHead]) -> Result<(), NoMemory> {
    for object in objects {
        push_double(out, object.size)?;
        push_double(out, object.base)?;
        push_double(out, object.flags)?;
        push_double(out, object.first)?;
        push_double(out, object.count)?;
        push_double(out, 0)?;
    }
    Ok(())
}

// Appends the object page table; the data of pages stand one after the other.
fn push_pages(out: &mut Vec<u8>, pages: &[SamplePage]) -> Result<(), NoMemory> {
    let mut at = 0u32;
    for page in pages {
        let len = count(page.data.len())?;
        push_double(out, at)?;
        push_word(out, (len % 0x1_0000) as u16)?;
        push_word(out, page.flags)?;
        at = at.wrapping_add(len);
    }
    Ok(())
}

// Appends the fixup page table.
fn push_spans(out: &mut Vec<u8>, pages: &[SamplePage]) -> Result<(), NoMemory> {
    let mut at = 0u32;
    push_double(out, at)?;
    for page in pages {
        at = at.wrapping_add(count(page.records.len())?);
        push_double(out, at)?;
    }
    Ok(())
}

/// The file of a module with these pages.
pub fn file_of(alloc: Global, sample: &Sample, pages: &[SamplePage]) -> Result<Vec<u8>, NoMemory> {
    let mut out = Vec::new(alloc);
    let header = header_of(sample, count(pages.len())?, places_of(sample, pages)?)?;
    out.extend_from_slice(&header)?;
    push_objects(&mut out, sample.objects)?;
    push_pages(&mut out, pages)?;
    out.extend_from_slice(sample.names)?;
    out.push(0)?;
    out.extend_from_slice(sample.entries)?;
    out.push(0)?;
    push_spans(&mut out, pages)?;
    for page in pages {
        out.extend_from_slice(page.records)?;
    }
    out.extend_from_slice(sample.imports)?;
    out.extend_from_slice(sample.procedures)?;
    for page in pages {
        out.extend_from_slice(page.data)?;
    }
    Ok(out)
}

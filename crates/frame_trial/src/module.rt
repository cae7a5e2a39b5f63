//! The module whose pages are mapped: one object of pages of zeros, each with a field that gets the address of its own place.

use lx_sample::{Sample, SamplePage, file_of, library_of};
use lx_types::{Bases, ModBases, NoMemory, ObjHead, PAGE_SIZE, Seq, SharedNumbers};
use mod_graph::Library;
use std::alloc::Global;

/// Where the object stands.
const BASE: u32 = 0x1000_0000;

/// How many bytes a page's record has: a 32-bit offset of a target with a wide offset.
const RECORD: usize = 9;

// The records of so many pages.
fn records_of(alloc: Global, pages: u32) -> Result<Vec<u8>, NoMemory> {
    let mut records = Vec::new(alloc);
    for page in 0..pages {
        let [a, b, c, d] = page.wrapping_mul(4).to_le_bytes();
        records.extend_from_slice(&[0x07, 0x10, a, b % 16, 1, a, b, c, d])?;
    }
    Ok(records)
}

/// The library of one module with so many pages.
pub fn library(alloc: Global, count: u32) -> Result<Option<Library>, NoMemory> {
    let records = records_of(alloc, count)?;
    let mut pages = Vec::new(alloc);
    for records in records.chunks(RECORD) {
        pages.push(SamplePage {
            flags: 3,
            data: &[],
            records,
        })?;
    }
    let object = ObjHead {
        size: count.wrapping_mul(PAGE_SIZE),
        base: BASE,
        flags: 0x2005,
        first: 1,
        count,
    };
    let sample = Sample {
        names: &[1, b'D', 0, 0],
        objects: &[object],
        entries: &[],
        imports: &[],
        import_count: 0,
        procedures: &[0],
    };
    let mut files = Vec::new(alloc);
    files.push(file_of(alloc, &sample, pages.as_slice())?)?;
    library_of(alloc, files)
}

/// The bases of the module's one object.
pub fn bases(alloc: Global) -> Result<Bases, NoMemory> {
    let own = ModBases {
        module: 0,
        objects: SharedNumbers::make(alloc, Vec::from_slice(alloc, &[BASE])?)?,
    };
    let mut mods = Vec::new(alloc);
    mods.push(own)?;
    Ok(Bases {
        mods: Seq::from_vec(mods),
    })
}

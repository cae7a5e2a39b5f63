//! The modules over which the sessions run: four libraries of one shape. A imports B, and E has a start address, so that it
//! is initialised.

use crate::failure::Failure;
use lx_sample::{Sample, SamplePage, file_of, library_of};
use lx_types::{NoMemory, ObjHead};
use mod_graph::Library;
use std::alloc::Global;

/// Code of four pages, two pages that all processes share, and one that each has for itself.
const OBJECTS: [ObjHead; 3] = [
    ObjHead {
        size: 0x4000,
        base: 0x1000_0000,
        flags: 0x2005,
        first: 1,
        count: 4,
    },
    ObjHead {
        size: 0x2000,
        base: 0x1001_0000,
        flags: 0x2023,
        first: 5,
        count: 2,
    },
    ObjHead {
        size: 0x1000,
        base: 0x1002_0000,
        flags: 0x2003,
        first: 7,
        count: 1,
    },
];

/// A page of zeros, whose second doubleword gets the address of the first byte of the code.
const PAGE: SamplePage = SamplePage {
    flags: 3,
    data: &[],
    records: &[0x07, 0x10, 4, 0, 1, 0, 0, 0, 0],
};

/// Where the header of a file says in which object the start address lies, from 1. It is the object's first byte.
const START_OBJECT: usize = 0x18;

/// A module: its name, the names that it imports, and whether it has a start address.
#[derive(Clone, Copy)]
struct Shape<'a> {
    names: &'a [u8],
    imports: &'a [u8],
    import_count: u32,
    has_start: bool,
}

const SHAPES: [Shape; 4] = [
    Shape {
        names: &[1, b'A', 0, 0],
        imports: &[1, b'B'],
        import_count: 1,
        has_start: false,
    },
    Shape {
        names: &[1, b'B', 0, 0],
        imports: &[],
        import_count: 0,
        has_start: false,
    },
    Shape {
        names: &[1, b'C', 0, 0],
        imports: &[],
        import_count: 0,
        has_start: false,
    },
    Shape {
        names: &[1, b'E', 0, 0],
        imports: &[],
        import_count: 0,
        has_start: true,
    },
];

// The file of a module.
fn file(alloc: Global, shape: Shape) -> Result<Vec<u8>, NoMemory> {
    let sample = Sample {
        names: shape.names,
        objects: &OBJECTS,
        entries: &[],
        imports: shape.imports,
        import_count: shape.import_count,
        procedures: &[0],
    };
    let mut bytes = file_of(alloc, &sample, &[PAGE; 7])?;
    if shape.has_start
        && let Some(object) = bytes.get_mut(START_OBJECT)
    {
        *object = 1;
    }
    Ok(bytes)
}

/// The library of all four.
pub fn library(alloc: Global) -> Result<Library, Failure> {
    let mut files = Vec::new(alloc);
    for shape in SHAPES {
        files.push(file(alloc, shape)?)?;
    }
    match library_of(alloc, files)? {
        Some(library) => Ok(library),
        None => Err(Failure::Library),
    }
}

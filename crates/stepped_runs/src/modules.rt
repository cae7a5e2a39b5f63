//! Library modules of objects of zeros, and libraries of them.

use lx_sample::{Sample, SamplePage, file_of, library_of};
use lx_types::{NoMemory, ObjHead, count};
use mod_graph::Library;
use std::alloc::Global;

/// A library module with a name of one letter, which starts at the first byte of its first object, with calls for all
/// processes; and the modules whose names it imports.
#[derive(Clone, Copy)]
pub struct Shape<'a> {
    pub name: u8,
    pub imports: &'a [u8],
    pub objects: &'a [ObjHead],
    pub pages: &'a [SamplePage<'a>],
}

/// Where the header has the number of the object in which the module starts.
const START_OBJECT: usize = 0x18;

// The names of import modules, each with its length.
fn imports_of(alloc: Global, names: &[u8]) -> Result<Vec<u8>, NoMemory> {
    let mut imports = Vec::new(alloc);
    for name in names {
        imports.extend_from_slice(&[1, *name])?;
    }
    Ok(imports)
}

// The file of a module.
fn file(alloc: Global, shape: &Shape) -> Result<Vec<u8>, NoMemory> {
    let imports = imports_of(alloc, shape.imports)?;
    let sample = Sample {
        names: &[1, shape.name, 0, 0],
        objects: shape.objects,
        entries: &[],
        imports: imports.as_slice(),
        import_count: count(shape.imports.len())?,
        procedures: &[0],
    };
    let mut file = file_of(alloc, &sample, shape.pages)?;
    if let Some(start) = file.get_mut(START_OBJECT) {
        *start = 1;
    }
    Ok(file)
}

/// The library of some modules, where their files make one.
pub fn library(alloc: Global, shapes: &[Shape]) -> Result<Option<Library>, NoMemory> {
    let mut files = Vec::new(alloc);
    for shape in shapes {
        files.push(file(alloc, shape)?)?;
    }
    library_of(alloc, files)
}

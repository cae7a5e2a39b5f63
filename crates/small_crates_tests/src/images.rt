//! An image that can be written.

use link_model::LaidObject;
use lx_types::{Bytes, Fix, FixTarget, Name, NoMemory, Seq, Source};
use lx_write::Image;
use obj_types::ModKind;
use std::alloc::Global;
use writable_images::can_be_written;

fn name(alloc: Global, text: &[u8]) -> Result<Name, NoMemory> {
    Name::of(alloc, text).map_err(|_| NoMemory)
}

// So many bytes, which begin with these; the others are 0.
fn bytes(alloc: Global, data: &[u8], len: usize) -> Result<Bytes, NoMemory> {
    let mut bytes = Vec::from_slice(alloc, data)?;
    for _ in data.len()..len {
        bytes.push(0)?;
    }
    Ok(Seq::from_vec(bytes))
}

fn page(alloc: Global, fixes: &[Fix]) -> Result<Seq<Fix>, NoMemory> {
    Ok(Seq::from_vec(Vec::from_slice(alloc, fixes)?))
}

// A source without an alias and an additive.
fn plain(source: Source, offset: i32, target: u32) -> Fix {
    Fix {
        source,
        alias: false,
        offset,
        target: FixTarget::Internal {
            object: 1,
            offset: target,
        },
        additive: 0,
    }
}

// An image of one object, with these bytes and the fixups of its pages.
fn one_object(
    alloc: Global,
    module: &[u8],
    object: LaidObject,
    data: &[u8],
    pages: &[&[Fix]],
) -> Result<Image, NoMemory> {
    let mut fixes = Vec::new(alloc);
    for fixups in pages {
        fixes.push(page(alloc, fixups)?)?;
    }
    Ok(Image {
        kind: ModKind::Library,
        name: name(alloc, module)?,
        about: Name::empty(alloc),
        flags: 0,
        start: None,
        stack: None,
        heap: 0,
        auto: 0,
        objects: Seq::from_vec(vec![in alloc; object]?),
        bytes: Seq::from_vec(vec![in alloc; bytes(alloc, data, object.size as usize)?]?),
        fixes: Seq::from_vec(vec![in alloc; Seq::from_vec(fixes)]?),
        imports: Seq::new(alloc),
        procs: Seq::new(alloc),
        exports: Seq::new(alloc),
    })
}

fn code(size: u32) -> LaidObject {
    LaidObject {
        size,
        base: 0x1000_0000,
        flags: 0x2005,
    }
}

#[test]
fn one_reference(rt: HostRuntime) -> Result<(), NoMemory> {
    let alloc = rt.alloc();
    let image = one_object(alloc, b"d", code(8), &[], &[&[plain(Source::Off32, 4, 0)]])?;
    assert!(rt; can_be_written(alloc, &image).is_ok());
    Ok(())
}

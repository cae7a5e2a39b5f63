//! Rows of bytes that processes write and read.

use crate::playing::Row;
use lx_sample::SamplePage;
use lx_types::{NoMemory, ObjHead};
use std::alloc::Global;
use stepped_runs::{At, Shape, Step};

/// A page of eight zeros, where a 32-bit offset at the fourth byte gets the address of the object.
static PAGES: [SamplePage<'static>; 1] = [SamplePage {
    flags: 0,
    data: &[0, 0, 0, 0, 0, 0, 0, 0],
    records: &[7, 0, 4, 0, 1, 0, 0],
}];

/// Code of that page.
static PATCHED: [ObjHead; 1] = [ObjHead {
    size: 8,
    base: 0x1000_0000,
    flags: 0x2005,
    first: 1,
    count: 1,
}];

/// Code, and after it an object that all processes share and one of each process's own.
static STORED: [ObjHead; 3] = [
    ObjHead {
        size: 16,
        base: 0x1000_0000,
        flags: 0x2005,
        first: 1,
        count: 0,
    },
    ObjHead {
        size: 16,
        base: 0x1000_0000,
        flags: 0x2023,
        first: 1,
        count: 0,
    },
    ObjHead {
        size: 16,
        base: 0x1000_0000,
        flags: 0x2003,
        first: 1,
        count: 0,
    },
];

// So many bytes of an object, from its first on.
fn at(module: u8, object: u32, len: u32) -> At {
    At {
        module,
        object,
        offset: 0,
        len,
    }
}

// A debugger's write is seen by its process alone, and as long as it holds the residence.
fn debug_writes(alloc: Global) -> Result<Row, NoMemory> {
    let shape = Shape {
        name: b'D',
        imports: &[],
        objects: &PATCHED,
        pages: &PAGES,
    };
    let all = at(b'D', 1, 8);
    let first = at(b'D', 1, 1);
    let steps = [
        (1, Step::Load(b'D')),
        (2, Step::Load(b'D')),
        (1, Step::Touch(all)),
        (2, Step::Touch(all)),
        (1, Step::Debug(first, b"\xCC")),
        (1, Step::Peek(all)),
        (2, Step::Peek(all)),
        (1, Step::Free(b'D')),
        (1, Step::Load(b'D')),
        (1, Step::Debug(first, b"\xCC")),
        (1, Step::Touch(all)),
        (1, Step::Peek(all)),
    ];
    Row::of(alloc, b"debug writes", &[shape], &steps)
}

// A write to a shared object is seen by all, and one to a private object by its process.
fn shared_writes(alloc: Global) -> Result<Row, NoMemory> {
    let shape = Shape {
        name: b'S',
        imports: &[],
        objects: &STORED,
        pages: &[],
    };
    let second = At {
        module: b'S',
        object: 2,
        offset: 1,
        len: 1,
    };
    let steps = [
        (1, Step::Load(b'S')),
        (2, Step::Load(b'S')),
        (1, Step::Touch(at(b'S', 2, 16))),
        (1, Step::Touch(at(b'S', 3, 16))),
        (2, Step::Touch(at(b'S', 2, 16))),
        (2, Step::Touch(at(b'S', 3, 16))),
        (1, Step::Write(at(b'S', 2, 1), b"\xAA")),
        (1, Step::Write(at(b'S', 3, 1), b"\xAA")),
        (2, Step::Shared(at(b'S', 2, 2))),
        (2, Step::Peek(at(b'S', 3, 2))),
        (1, Step::Peek(at(b'S', 3, 2))),
        (2, Step::Write(second, b"\xBB")),
        (1, Step::Shared(at(b'S', 2, 2))),
    ];
    Row::of(alloc, b"shared writes of two processes", &[shape], &steps)
}

/// The rows, in the order in which they are told.
pub fn byte_rows(alloc: Global) -> Result<Vec<Row>, NoMemory> {
    let mut rows = Vec::new(alloc);
    rows.push(debug_writes(alloc)?)?;
    rows.push(shared_writes(alloc)?)?;
    Ok(rows)
}

//! Rows of loads, frees and exits.

use crate::playing::Row;
use lx_types::{MAX_LOADS, MAX_PROCESSES, NoMemory, ObjHead};
use std::alloc::Global;
use stepped_runs::{Shape, Step};

/// Code of 16 zeros, which is linked where the shared arena begins.
static SMALL: [ObjHead; 1] = [ObjHead {
    size: 16,
    base: 0x1000_0000,
    flags: 0x2005,
    first: 1,
    count: 0,
}];

/// Code of as many zeros as the arena has bytes.
static ARENA: [ObjHead; 1] = [ObjHead {
    size: 0x1000_0000,
    base: 0x1000_0000,
    flags: 0x2005,
    first: 1,
    count: 0,
}];

/// Code of one zero more.
static MORE: [ObjHead; 1] = [ObjHead {
    size: 0x1000_0001,
    base: 0x1000_0000,
    flags: 0x2005,
    first: 1,
    count: 0,
}];

// A library of one object, which imports some.
fn shape(name: u8, imports: &'static [u8], objects: &'static [ObjHead]) -> Shape<'static> {
    Shape {
        name,
        imports,
        objects,
        pages: &[],
    }
}

// A imports B and C, which both import D.
fn diamond() -> [Shape<'static>; 4] {
    [
        shape(b'A', b"BC", &SMALL),
        shape(b'B', b"D", &SMALL),
        shape(b'C', b"D", &SMALL),
        shape(b'D', b"", &SMALL),
    ]
}

// Two processes load the same, and both end.
fn both_end(alloc: Global) -> Result<Row, NoMemory> {
    let steps = [
        (1, Step::Load(b'A')),
        (2, Step::Load(b'A')),
        (1, Step::Exit),
        (2, Step::Exit),
    ];
    Row::of(alloc, b"diamond", &diamond(), &steps)
}

// A free of A takes B with it, since C and D are held by another process.
fn two_are_taken(alloc: Global) -> Result<Row, NoMemory> {
    let steps = [
        (1, Step::Load(b'A')),
        (2, Step::Load(b'C')),
        (1, Step::Free(b'A')),
        (1, Step::Load(b'A')),
    ];
    Row::of(alloc, b"a free that takes two", &diamond(), &steps)
}

// The initialisation of B fails in process 1.
fn one_fails(alloc: Global) -> Result<Row, NoMemory> {
    let steps = [
        (1, Step::Load(b'A')),
        (1, Step::Free(b'A')),
        (2, Step::Load(b'A')),
        (1, Step::Load(b'A')),
        (1, Step::Exit),
    ];
    let mut row = Row::of(alloc, b"a failed initialisation", &diamond(), &steps)?;
    row.failing.push((1, 1))?;
    Ok(row)
}

// Two libraries that are linked at one base.
fn side_by_side(alloc: Global) -> Result<Row, NoMemory> {
    let shapes = [shape(b'X', b"", &SMALL), shape(b'Y', b"", &SMALL)];
    let steps = [(1, Step::Load(b'X')), (1, Step::Load(b'Y'))];
    Row::of(alloc, b"libraries side by side", &shapes, &steps)
}

// L fills the shared arena, and M has one byte more.
fn largest(alloc: Global) -> Result<Row, NoMemory> {
    let shapes = [
        shape(b'L', b"", &ARENA),
        shape(b'M', b"", &MORE),
        shape(b'D', b"", &SMALL),
    ];
    let steps = [
        (1, Step::Load(b'M')),
        (1, Step::Free(b'M')),
        (1, Step::Load(b'L')),
        (1, Step::Load(b'D')),
        (1, Step::Free(b'L')),
        (1, Step::Load(b'D')),
    ];
    Row::of(
        alloc,
        b"the largest object, and one byte more",
        &shapes,
        &steps,
    )
}

// Sixteen processes load the same, and all end.
fn sixteen(alloc: Global) -> Result<Row, NoMemory> {
    let mut row = Row::of(
        alloc,
        b"sixteen processes",
        &[shape(b'D', b"", &SMALL)],
        &[],
    )?;
    for pid in 1..=MAX_PROCESSES {
        row.steps.push((pid, Step::Load(b'D')))?;
    }
    for pid in 1..=MAX_PROCESSES {
        row.steps.push((pid, Step::Exit))?;
    }
    row.processes = MAX_PROCESSES;
    Ok(row)
}

// A process loads the same once more than it can.
fn one_too_many(alloc: Global) -> Result<Row, NoMemory> {
    let mut row = Row::of(
        alloc,
        b"one load too many",
        &[shape(b'D', b"", &SMALL)],
        &[],
    )?;
    for _ in 0..=MAX_LOADS {
        row.steps.push((1, Step::Load(b'D')))?;
    }
    row.steps.push((1, Step::Free(b'D')))?;
    row.steps.push((1, Step::Load(b'D')))?;
    row.processes = 1;
    row.lines = 6;
    Ok(row)
}

/// The rows, in the order in which they are told.
pub fn load_rows(alloc: Global) -> Result<Vec<Row>, NoMemory> {
    let mut rows = Vec::new(alloc);
    rows.push(both_end(alloc)?)?;
    rows.push(two_are_taken(alloc)?)?;
    rows.push(one_fails(alloc)?)?;
    rows.push(side_by_side(alloc)?)?;
    rows.push(largest(alloc)?)?;
    rows.push(sixteen(alloc)?)?;
    rows.push(one_too_many(alloc)?)?;
    Ok(rows)
}

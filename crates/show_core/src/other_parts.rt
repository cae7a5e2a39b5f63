//! Where a module starts and has its stack, and what stands before its header and after its tables ("LX Header").

use crate::header::header_place;
use crate::line;
use crate::outline::add;
use line_words::Word;
use lx_fields::header_field;
use lx_model::header_fields::{
    DEBUG_INFORMATION, DEBUG_LENGTH, ESP, ESP_OBJECT, NONRESIDENT_NAME_LENGTH,
    NONRESIDENT_NAME_TABLE,
};
use lx_types::{Bytes, Module, NoMemory};
use show_model::Part;
use std::alloc::Global;

// Adds a part with a line for an object and an offset there, unless the object is 0, which is none.
fn add_spot(
    alloc: Global,
    out: &mut Vec<Part>,
    heading: &str,
    spot: (u32, u32),
) -> Result<(), NoMemory> {
    let mut lines = Vec::new(alloc);
    if spot.0 != 0 {
        lines.push(line!(alloc; Text b"object", Number spot.0, Text b"offset", Hex spot.1)?)?;
    }
    add(alloc, out, heading, lines)
}

// Adds a line for what has bytes at a place, unless it has none.
fn push_place(
    alloc: Global,
    lines: &mut Vec<Bytes>,
    what: &[u8],
    at: u32,
    len: u64,
) -> Result<(), NoMemory> {
    if len != 0 {
        lines.push(line!(alloc; Text what, Text b"at", Hex at, Text b"length", Count len)?)?;
    }
    Ok(())
}

// The first name of the non-resident name table, which describes the module.
fn description(file: &[u8]) -> Option<&[u8]> {
    if header_field(file, NONRESIDENT_NAME_LENGTH) == 0 {
        return None;
    }
    let table = file.get(header_field(file, NONRESIDENT_NAME_TABLE) as usize..)?;
    let (len, text) = table.split_first()?;
    text.get(..usize::from(*len))
}

fn add_description(alloc: Global, out: &mut Vec<Part>, file: &[u8]) -> Result<(), NoMemory> {
    let mut lines = Vec::new(alloc);
    if let Some(text) = description(file) {
        lines.push(line!(alloc; Text text)?)?;
    }
    add(alloc, out, "description", lines)
}

// What has a place in the file of its own, and no number among the tables.
fn add_others(alloc: Global, out: &mut Vec<Part>, file: &[u8]) -> Result<(), NoMemory> {
    let stub = header_place(file).unwrap_or(0) as u64;
    let names = header_field(file, NONRESIDENT_NAME_TABLE);
    let names_len = u64::from(header_field(file, NONRESIDENT_NAME_LENGTH));
    let debug = header_field(file, DEBUG_INFORMATION);
    let debug_len = u64::from(header_field(file, DEBUG_LENGTH));
    let mut lines = Vec::new(alloc);
    push_place(alloc, &mut lines, b"stub for DOS", 0, stub)?;
    push_place(alloc, &mut lines, b"non-resident names", names, names_len)?;
    push_place(alloc, &mut lines, b"debug information", debug, debug_len)?;
    add(alloc, out, "other data", lines)
}

/// Adds the entry point, the stack, the description, the stub, and what stands after the tables.
pub fn add_other_parts(alloc: Global, out: &mut Vec<Part>, m: &Module) -> Result<(), NoMemory> {
    let file = m.file();
    let stack = (header_field(file, ESP_OBJECT), header_field(file, ESP));
    add_spot(alloc, out, "entry point", m.start().unwrap_or((0, 0)))?;
    add_spot(alloc, out, "stack", stack)?;
    add_description(alloc, out, file)?;
    add_others(alloc, out, file)
}

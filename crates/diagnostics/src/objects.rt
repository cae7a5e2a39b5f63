//! What is noticed of an object file or a library.

use omf_frame::comment_class::DEFAULT_LIBRARY;
use omf_frame::record_type::{COMENT, SEGDEF, SEGDEF_32};
use refusal_notes::{Record, page_size, record_at, shown};
use std::alloc::{AllocError, Global};

/// What was noticed of an object file that has a start address, weak externals or default libraries.
#[derive(Drop)]
pub struct ObjectSlips {
    pub name: String,
    pub has_start: bool,
    pub has_weak: bool,
    /// The default libraries that it names.
    pub libraries: Vec<String>,
}

/// The classes of comments that declare weak and lazy externals.
const WEAK: u8 = 0xA8;

const LAZY: u8 = 0xA9;

/// The bit of MODEND's first byte by which the module has a start address.
const HAS_START: u8 = 0x40;

/// The bits of SEGDEF's first byte that say how segments of one name become one, and those of a stack.
const COMBINE: u8 = 0x1C;

const STACK: u8 = 0x14;

// The default library of a comment.
fn library_of<'a>(record: &Record<'a>) -> Option<&'a [u8]> {
    if record.kind == COMENT && record.body.get(1) == Some(&DEFAULT_LIBRARY) {
        return record.body.get(2..);
    }
    None
}

fn declares_weak(record: &Record<'_>) -> bool {
    record.kind == COMENT && matches!(record.body.get(1), Some(&WEAK | &LAZY))
}

// Whether the last record of a module has a start address.
fn starts(last: &Record<'_>) -> bool {
    match last.body.first() {
        Some(kind) => kind & HAS_START != 0,
        None => false,
    }
}

fn is_stack(record: &Record<'_>) -> bool {
    match (record.kind, record.body.first()) {
        (SEGDEF | SEGDEF_32, Some(attributes)) => attributes & COMBINE == STACK,
        _ => false,
    }
}

/// Whether an object file or a library has a stack segment.
pub fn has_stack(bytes: &[u8]) -> bool {
    let page = page_size(bytes);
    let mut at = 0;
    for _ in 0..bytes.len() {
        let Some(record) = record_at(bytes, at) else {
            break;
        };
        if is_stack(&record) {
            return true;
        }
        match record.next(page) {
            Some(next) => at = next,
            None => break,
        }
    }
    false
}

/// What is noticed of an object file, where something is.
pub fn object_slips(
    alloc: Global,
    name: &str,
    bytes: &[u8],
) -> Result<Option<ObjectSlips>, AllocError> {
    let mut libraries = Vec::new(alloc);
    let mut has_weak = false;
    let mut has_start = false;
    let mut at = 0;
    for _ in 0..bytes.len() {
        let Some(record) = record_at(bytes, at) else {
            break;
        };
        if let Some(library) = library_of(&record) {
            libraries.push(shown(alloc, library).to_string(alloc)?)?;
        }
        has_weak |= declares_weak(&record);
        if record.is_last() {
            has_start = starts(&record);
            break;
        }
        at = record.end;
    }
    if !has_start && !has_weak && libraries.is_empty() {
        return Ok(None);
    }
    Ok(Some(ObjectSlips {
        name: name.to_string(alloc)?,
        has_start,
        has_weak,
        libraries,
    }))
}

//! Comments by their classes, and records ("88h COMENT", "Record Format").

use crate::line;
use crate::outline::{Line, add, add_list};
use line_words::Word;
use lx_types::{Bytes, NoMemory};
use omf_frame::Rec;
use omf_frame::comment_class::{DEFAULT_LIBRARY, EXTENSION};
use omf_frame::record_type::COMENT;
use show_model::Part;
use std::alloc::Global;

fn class_word(class: u8) -> &'static [u8] {
    match class {
        0x00 => b"translator",
        0x01 => b"copyright",
        0x81 => b"library",
        0x9C => b"DOS version",
        0x9D => b"memory model",
        0x9E => b"DOSSEG",
        DEFAULT_LIBRARY => b"default library",
        EXTENSION => b"extension",
        0xA1 => b"symbol and type format",
        0xA2 => b"end of the linker's pass",
        0xA3 => b"library module",
        0xA4 => b"executable string",
        0xA6 => b"incremental compilation error",
        0xA7 => b"no padding",
        0xA8 => b"weak external names",
        0xA9 => b"lazy external names",
        0xDA => b"comment",
        0xDB => b"compiler",
        0xDC => b"date",
        0xDD => b"time stamp",
        0xDF => b"user",
        0xE9 => b"dependency",
        0xFF => b"command line",
        _ => b"other",
    }
}

// A comment: its place, its class, and its text.
fn comment_line(alloc: Global, rec: &Rec) -> Line {
    let (class, text): (u8, &[u8]) = match rec.body {
        [_, class, text @ ..] => (*class, text),
        _ => (0, &[]),
    };
    line!(alloc; Count rec.at as u64, Text b"class", Bytes &[class], Text class_word(class), Text text)
}

fn comment_lines(alloc: Global, records: &[Rec<'_>]) -> Result<Vec<Bytes>, NoMemory> {
    let mut lines = Vec::new(alloc);
    for rec in records {
        if rec.ty == COMENT {
            lines.push(comment_line(alloc, rec)?)?;
        }
    }
    Ok(lines)
}

/// Adds the comments among records, and the records.
pub fn add_records(
    alloc: Global,
    out: &mut Vec<Part>,
    records: &[Rec<'_>],
) -> Result<(), NoMemory> {
    let lines = comment_lines(alloc, records)?;
    add(alloc, out, "comments", lines)?;
    add_list(alloc, out, "records", records, &())
}

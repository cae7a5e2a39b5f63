//! The records of an object file or a library, as they stand one after the other ("Record Format").

use crate::line;
use crate::outline::{Line, Told};
use line_words::Word;
use lx_bytes::Cur;
use lx_types::NoMemory;
use omf_frame::record_type::{
    COMDAT, COMDAT_32, COMDEF, COMENT, EXTDEF, FIXUPP, FIXUPP_32, GRPDEF, LEDATA, LEDATA_32,
    LEXTDEF, LEXTDEF_32, LHEADR, LIDATA, LIDATA_32, LINNUM, LINNUM_32, LNAMES, LPUBDEF, LPUBDEF_32,
    MODEND, MODEND_32, PUBDEF, PUBDEF_32, SEGDEF, SEGDEF_32, THEADR,
};
use omf_frame::{Rec, next_record};
use std::alloc::Global;

// The type of a record in hexadecimal digits, and its name.
fn type_word(ty: u8) -> &'static [u8] {
    match ty {
        THEADR => b"80 THEADR",
        LHEADR => b"82 LHEADR",
        COMENT => b"88 COMENT",
        MODEND => b"8A MODEND",
        MODEND_32 => b"8B MODEND",
        EXTDEF => b"8C EXTDEF",
        PUBDEF => b"90 PUBDEF",
        PUBDEF_32 => b"91 PUBDEF",
        LINNUM => b"94 LINNUM",
        LINNUM_32 => b"95 LINNUM",
        LNAMES => b"96 LNAMES",
        SEGDEF => b"98 SEGDEF",
        SEGDEF_32 => b"99 SEGDEF",
        GRPDEF => b"9A GRPDEF",
        FIXUPP => b"9C FIXUPP",
        FIXUPP_32 => b"9D FIXUPP",
        LEDATA => b"A0 LEDATA",
        LEDATA_32 => b"A1 LEDATA",
        LIDATA => b"A2 LIDATA",
        LIDATA_32 => b"A3 LIDATA",
        COMDEF => b"B0 COMDEF",
        LEXTDEF => b"B4 LEXTDEF",
        LEXTDEF_32 => b"B5 LEXTDEF",
        LPUBDEF => b"B6 LPUBDEF",
        LPUBDEF_32 => b"B7 LPUBDEF",
        COMDAT => b"C2 COMDAT",
        COMDAT_32 => b"C3 COMDAT",
        _ => b"unknown",
    }
}

fn record_line(alloc: Global, rec: &Rec) -> Line {
    let (at, len) = (rec.at as u64, rec.body.len() as u64);
    line!(alloc; Count at, Text type_word(rec.ty), Text b"length", Count len)
}

impl<'a> Told<()> for Rec<'a> {
    fn line<'x>(&'x self, alloc: Global, _number: u64, _context: &'x ()) -> Line {
        record_line(alloc, self)
    }
}

/// Whether a record of this type ends its module.
pub fn is_end(ty: u8) -> bool {
    ty == MODEND || ty == MODEND_32
}

// Moves to the next multiple of the page size. There is none where the size is 0, or past the end.
fn to_page(cur: &mut Cur, size: usize) -> bool {
    if size == 0 {
        return false;
    }
    let skip = (size - cur.at() % size) % size;
    cur.take(skip).is_ok()
}

/// The records from a place of the file on that end before another place: those of one module, or with a page size those of all
/// modules of a library.
pub fn records_before<'a>(
    alloc: Global,
    bytes: &'a [u8],
    limit: usize,
    page: usize,
) -> Result<Vec<Rec<'a>>, NoMemory> {
    let mut records = Vec::new(alloc);
    let mut cur = Cur::of(bytes);
    if cur.take(page).is_err() {
        return Ok(records);
    }
    // A record has four bytes at least.
    for _ in 0..bytes.len() {
        let Ok(rec) = next_record(&mut cur) else {
            break;
        };
        if cur.at() > limit {
            break;
        }
        records.push(rec)?;
        if is_end(rec.ty) && !to_page(&mut cur, page) {
            break;
        }
    }
    Ok(records)
}

//! The records of an object file or a library, as they stand one after the other. Nothing is judged here.

use omf_frame::record_type::{LIBRARY_HEADER, MODEND, MODEND_32};
use std::fmt::{self, Display, Formatter, Write};

/// A record: its type, its contents without the checksum, and the place after it.
#[derive(Clone, Copy)]
pub struct Record<'a> {
    pub kind: u8,
    pub body: &'a [u8],
    pub end: usize,
}

/// The record that begins at a place, where it is all there.
pub fn record_at(bytes: &[u8], at: usize) -> Option<Record<'_>> {
    let [kind, low, high, rest @ ..] = bytes.get(at..)? else {
        return None;
    };
    let length = usize::from(u16::from_le_bytes([*low, *high]));
    let (_checksum, body) = rest.get(..length)?.split_last()?;
    let end = at.saturating_add(3 + length);
    Some(Record {
        kind: *kind,
        body,
        end,
    })
}

impl<'a> Record<'a> {
    /// Whether the record ends its module.
    pub fn is_last(&self) -> bool {
        matches!(self.kind, MODEND | MODEND_32)
    }

    /// The place of the next record: that of a library's module stands on a page of this size.
    pub fn next(&self, page: usize) -> Option<usize> {
        let unit = if self.is_last() { page } else { 1 };
        self.end.checked_next_multiple_of(unit)
    }
}

/// How many bytes a page of a library has, which its header fills; 1 of what is no library.
pub fn page_size(bytes: &[u8]) -> usize {
    match record_at(bytes, 0) {
        Some(header) if header.kind == LIBRARY_HEADER => header.end,
        _ => 1,
    }
}

/// The place of the record in which a byte of an object file or a library stands: the last one that begins at it or before.
pub fn record_with(bytes: &[u8], place: usize) -> usize {
    let page = page_size(bytes);
    let mut at = 0;
    for _ in 0..bytes.len() {
        match place_after(bytes, at, page) {
            Some(next) if next <= place => at = next,
            _ => break,
        }
    }
    at
}

// The place of the record after one.
fn place_after(bytes: &[u8], at: usize, page: usize) -> Option<usize> {
    record_at(bytes, at)?.next(page)
}

/// The type of which `NAMES` has the first name.
const FIRST: u8 = 0x6E;

/// The names of types of records, of every second type, and nothing where there is none. The type after it is the same with
/// fields of 32 bits, where it is one of `PAIRED`.
const NAMES: [&str; 49] = [
    "RHEADR", "REGINT", "REDATA", "RIDATA", "OVLDEF", "ENDREC", "BLKDEF", "BLKEND", "DEBSYM",
    "THEADR", "LHEADR", "PEDATA", "PIDATA", "COMENT", "MODEND", "EXTDEF", "TYPDEF", "PUBDEF",
    "LOCSYM", "LINNUM", "LNAMES", "SEGDEF", "GRPDEF", "FIXUPP", "", "LEDATA", "LIDATA", "LIBHED",
    "LIBNAM", "LIBLOC", "LIBDIC", "", "", "COMDEF", "BAKPAT", "LEXTDEF", "LPUBDEF", "LCOMDEF", "",
    "CEXTDEF", "", "", "COMDAT", "LINSYM", "ALIAS", "NBKPAT", "LLNAMES", "VERNUM", "VENDEXT",
];

const PAIRED: [u8; 14] = [
    0x8A, 0x90, 0x92, 0x94, 0x98, 0x9C, 0xA0, 0xA2, 0xB2, 0xB4, 0xB6, 0xC2, 0xC4, 0xC8,
];

fn name_of(kind: u8) -> Option<&'static str> {
    let is_wide = kind % 2 == 1 && PAIRED.contains(&(kind - 1));
    let plain = if is_wide { kind - 1 } else { kind };
    match (plain, plain.checked_sub(FIRST)) {
        (0xF0, _) => Some("a library's header"),
        (0xF1, _) => Some("a library's end"),
        (_, Some(place)) if place % 2 == 0 => NAMES.get(usize::from(place / 2)).copied(),
        _ => None,
    }
}

/// The type of a record in words, as `C2h, COMDAT`.
#[derive(Clone, Copy)]
pub struct RecordType(pub u8);

impl Display for RecordType {
    fn fmt<W: Write>(&self, f: &mut Formatter<W>) -> fmt::Result {
        let kind = self.0;
        match name_of(kind).unwrap_or("") {
            "" => write!(f, "{kind:02X}h, which no format of object files has"),
            name => write!(f, "{kind:02X}h, {name}"),
        }
    }
}

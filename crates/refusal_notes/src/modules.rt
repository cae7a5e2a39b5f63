//! What a module has where it is refused ("32-bit Linear eXecutable Module Format").

use crate::looks::word_at;
use lx_model::header_fields::{
    BYTE_ORDER, CPU_TYPE, EIP_OBJECT, FORMAT_LEVEL, HEADER_PLACE, MODULE_FLAGS, MODULE_PAGES,
    OBJECT_COUNT, PAGE_OFFSET_SHIFT, PAGE_SIZE_FIELD, SYSTEM_TYPE, WORD_ORDER,
};
use lx_types::{LxKind, LxRefusal, MODULE_KIND};

/// The place of an entry's flags in the object page table ("Object Page Table").
const PAGE_FLAGS: usize = 6;

/// The flag of a fixup record's target that begins a chain ("Fixup Record Table").
const CHAIN: u8 = 0x08;

/// The flag of a module that its linker found errors in.
const HAS_ERRORS: u32 = 0x2000;

/// Where the header of a file stands.
pub fn header_of(bytes: &[u8]) -> Option<usize> {
    if bytes.starts_with(b"LX") {
        return Some(0);
    }
    let place = word_at(bytes, HEADER_PLACE)? as usize;
    bytes.get(place..)?.starts_with(b"LX").then_some(place)
}

// What a module of these flags is that is refused.
fn flags_text(flags: u32) -> &'static str {
    match (flags & HAS_ERRORS, flags & MODULE_KIND) {
        (0, 0x1_8000) => "MODULE FLAGS: a library for protected memory alone is not read",
        (0, 0x2_0000) => "MODULE FLAGS: a driver of a physical device is not read",
        (0, 0x2_8000) => "MODULE FLAGS: a driver of a virtual device is not read",
        (0, _) => "MODULE FLAGS: a module is a program or a library",
        _ => "MODULE FLAGS: the linker that wrote the module found errors in it: it is not read",
    }
}

// The name of a header's field in the document, and what it may be.
fn field_text(offset: u8, value: u32) -> Option<&'static str> {
    match offset {
        BYTE_ORDER => Some("B-ORD is 0, the low byte first"),
        WORD_ORDER => Some("W-ORD is 0, the low word first"),
        FORMAT_LEVEL => Some("FORMAT LEVEL is 0"),
        CPU_TYPE => Some("CPU TYPE is 1, 2 or 3: an 80286, 80386 or 80486"),
        SYSTEM_TYPE => Some("OS TYPE is 1, OS/2"),
        MODULE_FLAGS => Some(flags_text(value)),
        MODULE_PAGES => Some("MODULE # OF PAGES is at most 65,536"),
        EIP_OBJECT => Some("EIP OBJECT # is an object of the module, or 0"),
        PAGE_SIZE_FIELD => Some("PAGE SIZE is 4,096"),
        PAGE_OFFSET_SHIFT => Some("PAGE OFFSET SHIFT is at most 12"),
        OBJECT_COUNT => Some("# OBJECTS IN MODULE is at most 1,024"),
        _ => None,
    }
}

fn field_at(bytes: &[u8], at: usize) -> Option<&'static str> {
    let offset = at.checked_sub(header_of(bytes)?)?;
    field_text(u8::try_from(offset).ok()?, word_at(bytes, at).unwrap_or(0))
}

fn page_text(bytes: &[u8], at: usize) -> Option<&'static str> {
    match bytes.get(at.checked_add(PAGE_FLAGS)?..)? {
        [4, 0, ..] => Some("a page has the flags 4: a range of pages is not read"),
        [5, 0, ..] => Some(
            "a page has the flags 5: /EXEPACK:2 packed it, which is not read: link the module without it",
        ),
        _ => None,
    }
}

fn source_text(bytes: &[u8], at: usize) -> Option<&'static str> {
    let flags = bytes.get(at.checked_add(1)?)?;
    (flags & CHAIN != 0).then_some("a fixup begins a chain in its page, which is not read")
}

/// What the module has at the place of its first fault, where the kind alone does not say it.
pub fn module_text(bytes: &[u8], refusal: LxRefusal) -> Option<&'static str> {
    let at = usize::try_from(refusal.at).ok()?;
    match refusal.kind {
        LxKind::Field | LxKind::TooMany => field_at(bytes, at),
        LxKind::PageKind => page_text(bytes, at),
        LxKind::BadSource => source_text(bytes, at),
        _ => None,
    }
}

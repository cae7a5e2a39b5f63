//! What a file seems to be.

use omf_frame::record_type::{LHEADR, LIBRARY_HEADER, THEADR};

/// The doubleword at a place.
pub fn word_at(bytes: &[u8], place: usize) -> Option<u32> {
    match bytes.get(place..)? {
        [a, b, c, d, ..] => Some(u32::from_le_bytes([*a, *b, *c, *d])),
        _ => None,
    }
}

/// What files of one kind begin with.
struct Signature {
    begins: &'static [u8],
    seems: &'static str,
}

const SIGNATURES: [Signature; 13] = [
    Signature {
        begins: b"\x7FELF",
        seems: "an ELF file: nasm makes object files of OS/2 with -f obj",
    },
    Signature {
        begins: b"!<arch>",
        seems: "an archive of ar",
    },
    Signature {
        begins: &[0x4C, 0x01],
        seems: "a COFF object file of 32 bits: nasm makes object files of OS/2 with -f obj",
    },
    Signature {
        begins: &[0x64, 0x86],
        seems: "a COFF object file of 64 bits",
    },
    Signature {
        begins: b"LX",
        seems: "an LX module",
    },
    Signature {
        begins: b"LE",
        seems: "an LE module",
    },
    Signature {
        begins: b"NE",
        seems: "an NE module, of 16-bit OS/2 or Windows",
    },
    Signature {
        begins: b"PE\0\0",
        seems: "a PE module, of Windows",
    },
    Signature {
        begins: &[LIBRARY_HEADER],
        seems: "a library of object modules",
    },
    Signature {
        begins: &[THEADR],
        seems: "an object file",
    },
    Signature {
        begins: &[LHEADR],
        seems: "an object file",
    },
    Signature {
        begins: b"PK\x03\x04",
        seems: "a zip archive",
    },
    Signature {
        begins: &[0x1F, 0x8B],
        seems: "a file that gzip packed",
    },
];

/// What a new header begins with that stands after a DOS program.
const AFTER_STUB: [Signature; 4] = [
    Signature {
        begins: b"LX",
        seems: "an LX module after a DOS program",
    },
    Signature {
        begins: b"LE",
        seems: "an LE module",
    },
    Signature {
        begins: b"NE",
        seems: "an NE module, of 16-bit OS/2 or Windows",
    },
    Signature {
        begins: b"PE",
        seems: "a PE module, of Windows",
    },
];

fn by_signature(bytes: &[u8], signatures: &'static [Signature]) -> Option<&'static str> {
    for signature in signatures {
        if bytes.starts_with(signature.begins) {
            return Some(signature.seems);
        }
    }
    None
}

// What stands at the place that the doubleword at 3Ch names.
fn new_header(bytes: &[u8]) -> Option<&[u8]> {
    bytes.get(word_at(bytes, 0x3C)? as usize..)
}

fn is_text(bytes: &[u8]) -> bool {
    for &byte in bytes.iter().take(512) {
        if !matches!(byte, 0x20..|9..=13| 0x1A) {
            return false;
        }
    }
    true
}

/// What a file seems to be, by its first bytes, where that can be told.
pub fn looks_like(bytes: &[u8]) -> Option<&'static str> {
    if bytes.is_empty() {
        return Some("an empty file");
    }
    if bytes.starts_with(b"MZ") {
        let header = new_header(bytes).unwrap_or(&[]);
        return Some(by_signature(header, &AFTER_STUB).unwrap_or("a DOS program"));
    }
    match by_signature(bytes, &SIGNATURES) {
        None if is_text(bytes) => Some("text"),
        seems => seems,
    }
}

// The last part of a path, without what stands after its last dot.
fn stem(path: &str) -> &str {
    let file = match path.rsplit_once('/') {
        Some((_, file)) => file,
        None => path,
    };
    match file.rsplit_once('.') {
        Some((stem, _)) => stem,
        None => file,
    }
}

/// Whether a file is the default library of this name.
pub fn is_library_of(file: &str, library: &str) -> bool {
    stem(file).eq_ignore_ascii_case(stem(library))
}

/// Whether bytes begin as an object file or a library does.
pub fn begins_as_object(bytes: &[u8]) -> bool {
    matches!(bytes.first(), Some(&THEADR | &LHEADR | &LIBRARY_HEADER))
}

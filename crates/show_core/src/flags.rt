//! Flags and numbers of formats in words.

use lx_types::NoMemory;
use std::alloc::Global;

/// The module flags of a header ("LX Header").
pub const MODULE_FLAG_WORDS: [(u32, &str); 10] = [
    (0x0004, "initialised for each process"),
    (0x0010, "internal fixups are applied"),
    (0x0020, "external fixups are applied"),
    (0x0100, "not for Presentation Manager windows"),
    (0x0200, "with Presentation Manager windows"),
    (0x2000, "not loadable"),
    (0x8000, "library"),
    (0x1_0000, "protected memory"),
    (0x2_0000, "device driver"),
    (0x4000_0000, "terminated for each process"),
];

/// The flags of an object ("Object Table").
pub const OBJECT_FLAG_WORDS: [(u32, &str); 14] = [
    (0x0001, "readable"),
    (0x0002, "writable"),
    (0x0004, "executable"),
    (0x0008, "resource"),
    (0x0010, "discardable"),
    (0x0020, "shared"),
    (0x0040, "preload"),
    (0x0080, "invalid"),
    (0x0100, "zero-filled"),
    (0x0200, "resident"),
    (0x1000, "alias"),
    (0x2000, "32-bit"),
    (0x4000, "conforming"),
    (0x8000, "I/O privilege"),
];

/// The words of the bits that are set, with a comma and a blank between each two.
pub fn flag_words(alloc: Global, flags: u32, table: &[(u32, &str)]) -> Result<Vec<u8>, NoMemory> {
    let mut words = Vec::new(alloc);
    for (bit, word) in table {
        if flags & *bit != 0 {
            if !words.is_empty() {
                words.extend_from_slice(b", ")?;
            }
            words.extend_from_slice(word.as_bytes())?;
        }
    }
    Ok(words)
}

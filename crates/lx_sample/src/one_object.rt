//! The smallest library, as its bytes.

/// The library D of one object of 8 bytes: its object table stands at C4h, its page of zeros at DCh, its
/// names at E4h, its empty entry table at E9h, its fixup page table at EAh, one record at F2h, an empty
/// table of import procedures at F9h, and its other names at FAh. The module flags stand at 10h, the start's
/// object at 18h, the import modules' place at 70h and their count at 74h, the object's linked base at C8h.
pub const ONE_OBJECT: [u8; 255] = [
    0x4C, 0x58, 0, 0, 0, 0, 0, 0, 2, 0, 1, 0, 0, 0, 0, 0, 0, 0x80, 0, 0, 1, 0, 0, 0, 0, 0, 0, 0, 0,
    0, 0, 0, 0, 0, 0, 0, 0, 0, 0, 0, 0, 0x10, 0, 0, 0, 0, 0, 0, 0x10, 0, 0, 0, 0, 0, 0, 0, 0x26, 0,
    0, 0, 0, 0, 0, 0, 0xC4, 0, 0, 0, 1, 0, 0, 0, 0xDC, 0, 0, 0, 0xFA, 0, 0, 0, 0, 0, 0, 0, 0, 0, 0,
    0, 0xE4, 0, 0, 0, 0xE9, 0, 0, 0, 0, 0, 0, 0, 0, 0, 0, 0, 0xEA, 0, 0, 0, 0xF2, 0, 0, 0, 0xF9, 0,
    0, 0, 0, 0, 0, 0, 0xF9, 0, 0, 0, 0, 0, 0, 0, 0xFA, 0, 0, 0, 0, 0, 0, 0, 0xFA, 0, 0, 0, 5, 0, 0,
    0, 0, 0, 0, 0, 0, 0, 0, 0, 0, 0, 0, 0, 0, 0, 0, 0, 0, 0, 0, 0, 0, 0, 0, 0, 0, 0, 0, 0, 0, 0, 0,
    0, 0, 0, 0, 0, 0, 0, 0, 0, 0, 0, 0, 0, 0, 0, 0, 0, 0, 0, 0, 0, 8, 0, 0, 0, 0, 0, 0, 0x10, 5,
    0x20, 0, 0, 1, 0, 0, 0, 1, 0, 0, 0, 0, 0, 0, 0, 0, 0, 0, 0, 0, 0, 3, 0, 1, 0x44, 0, 0, 0, 0, 0,
    0, 0, 0, 7, 0, 0, 0, 7, 0, 4, 0, 1, 0, 0, 0, 1, 0x44, 0, 0, 0,
];

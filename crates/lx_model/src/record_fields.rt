//! The flags of fixup records, and how many sources one lists.
//!
//! "32-bit Linear eXecutable Module Format": "Fixup Record Table" (SRC, FLAGS, CNT).

/// A flag of the source byte: the selector is that of the 16:16 alias.
pub const ALIAS: u8 = 0x10;

/// A flag of the source byte: the record lists the offsets of its sources.
pub const LISTED: u8 = 0x20;

/// A flag: the record has an additive.
pub const ADDITIVE: u8 = 0x04;

/// A flag: the record begins a chain of fixups in the page image.
pub const CHAIN: u8 = 0x08;

/// A flag: the target's offset has 32 bits.
pub const WIDE_TARGET: u8 = 0x10;

/// A flag: the additive has 32 bits.
pub const WIDE_ADDITIVE: u8 = 0x20;

/// A flag: the number of an object or a module, or an ordinal of the entry table, has 16 bits.
pub const WIDE_NUMBER: u8 = 0x40;

/// A flag: the ordinal of an import has 8 bits.
pub const BYTE_ORDINAL: u8 = 0x80;

/// The most sources that one record lists.
pub const MAX_LISTED: usize = 255;

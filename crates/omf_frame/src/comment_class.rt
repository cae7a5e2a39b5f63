//! The classes of comments that say something to a linker, and the subtypes of the class of extensions ("88h COMENT").

/// The text is the name of a library.
pub const DEFAULT_LIBRARY: u8 = 0x9F;

/// The first byte of the text is a subtype.
pub const EXTENSION: u8 = 0xA0;

/// A subtype: a name that another module exports.
pub const IMPDEF: u8 = 1;

/// A subtype: a name that the linked module exports.
pub const EXPDEF: u8 = 2;

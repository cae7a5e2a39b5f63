//! The numbers that bound a link.

/// The most bytes of a 16-bit object.
pub const MAX_NARROW_OBJECT: u32 = 65_536;

/// The most bytes of a 32-bit object, and of all objects of a module together.
pub const MAX_MEMORY: u32 = 16_777_216;

/// The most import modules, and the greatest ordinal: their numbers have 16 bits.
pub const MAX_NUMBER: u32 = 65_535;

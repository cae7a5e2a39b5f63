//! The numbers that bound entry tables, and how long a run of iterated data is.
//!
//! "32-bit Linear eXecutable Module Format": "Entry Table" (CNT, the ordinals), "Iterated Data".

/// The greatest ordinal of an entry table.
pub const MAX_ORDINAL: u32 = 65_535;

/// The most entries of a bundle.
pub const MAX_ENTRIES: usize = 255;

/// How many equal bytes are written as a group of iterated data of their own: so many and more.
pub const LONG_RUN: usize = 8;

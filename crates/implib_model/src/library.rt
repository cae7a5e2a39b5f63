//! The numbers of a library of object modules ("Microsoft LIB Library Format").

/// The bytes of a page.
pub const PAGE: usize = 16;

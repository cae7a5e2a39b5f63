//! The first bytes of a communal's length ("B0h COMDEF").

/// The greatest length that is one byte.
pub const MAX_SHORT_LENGTH: u8 = 0x80;

/// The first byte of a length whose number has 2 bytes.
pub const LENGTH_16: u8 = 0x81;

/// The first byte of a length whose number has 3 bytes.
pub const LENGTH_24: u8 = 0x84;

/// The first byte of a length whose number has 4 bytes.
pub const LENGTH_32: u8 = 0x88;

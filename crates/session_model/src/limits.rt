//! The numbers that bound what a session says.

/// The most commands of one script.
pub const MAX_COMMANDS: usize = 1024;

/// The most bytes of one peek, shared read or write.
pub const MAX_BYTES: u32 = 4096;

/// The most bytes of a word. Bytes to write are a word that may be longer.
pub const MAX_WORD: usize = 255;

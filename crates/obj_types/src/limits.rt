//! What one object module may hold, and where a module may have its base.

/// Bytes of expanded data, and of a stack.
pub const MAX_DATA: u32 = 16_777_216;

/// Fixups.
pub const MAX_FIXES: u32 = 1_048_576;

/// The depth to which LIDATA blocks are nested.
pub const MAX_DEPTH: u32 = 16;

/// The least base that a module can ask for: the private arena's.
pub const MIN_BASE: u32 = 0x1_0000;

/// The greatest base that a module can ask for: the last 64 KiB of the shared arena.
pub const MAX_BASE: u32 = 0x1FFF_0000;

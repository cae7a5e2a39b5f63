//! Where a field of a FIXUPP record begins.

use crate::have::Have;

/// What is the same for each field of a FIXUPP record.
#[derive(Clone, Copy)]
pub struct Fixupp {
    /// The place of the record.
    pub at: usize,
    /// Whether a displacement has four bytes.
    pub wide: bool,
    /// What an index may be.
    pub have: Have,
}

/// The first byte of a field, which has been read.
#[derive(Clone, Copy)]
pub struct FieldStart {
    pub fixupp: Fixupp,
    /// The place of the byte.
    pub at: usize,
    pub byte: u8,
}

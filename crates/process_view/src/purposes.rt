//! What a place is used for.

/// What is to be done with a place.
#[derive(Clone, Copy)]
pub enum Purpose {
    /// Its pages are made present.
    Touch,
    /// Bytes are written.
    Write,
    /// Bytes are read that all processes share.
    Share,
    /// Bytes are read of code or of the process's own data.
    Peek,
    /// Bytes are written to the process's own copy of code.
    Debug,
}

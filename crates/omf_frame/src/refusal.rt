//! Why no record is read.

use thiserror::Error;

/// Why no record is read; `at` is the place of the first byte of what stands there.
#[derive(Clone, Copy, Debug, Error)]
pub enum FrameRefusal {
    /// The length is 0, or the record passes the end.
    #[error("the record at {at} is cut off")]
    Short { at: usize },
    /// The checksum byte is not 0, and the bytes of the record have this sum, which is not 0.
    #[error("the bytes of the record at {at} have the sum {sum}")]
    BadChecksum { at: usize, sum: u8 },
    /// No record of an object module has this type.
    #[error("the record at {at} has the unknown type {ty:02X}h")]
    UnknownType { at: usize, ty: u8 },
}

//! Why an object file or a library is refused.

use std::fmt::{self, Debug, Display, Formatter, Write};
use thiserror::Error;

/// The first fault of an object file or a library; `at` is a byte offset in the file.
#[derive(Clone, Copy, Error)]
pub enum OmfRefusal {
    /// A field passes its record's end, or a record the file's end.
    #[error("@{at} Short")]
    Short { at: usize },
    /// A record's bytes sum to `sum` modulo 256, and its checksum byte is not 0.
    #[error("@{at} BadChecksum {sum}")]
    BadChecksum { at: usize, sum: u8 },
    /// No record has this type.
    #[error("@{at} UnknownType {ty}")]
    UnknownType { at: usize, ty: u8 },
    /// An index of which there are only `have`, or that is not allowed.
    #[error("@{at} BadIndex {index} {have}")]
    BadIndex { at: usize, index: u32, have: u32 },
    /// A field has a value that the format does not have.
    #[error("@{at} BadField")]
    BadField { at: usize },
    /// Data past its segment's length.
    #[error("@{at} DataRange")]
    DataRange { at: usize },
    /// LIDATA blocks nested more than 16 deep.
    #[error("@{at} Nested")]
    Nested { at: usize },
    /// A fixup names a thread that is not set.
    #[error("@{at} NoThread")]
    NoThread { at: usize },
    /// A location that fixups do not have.
    #[error("@{at} BadLocation {loc}")]
    BadLocation { at: usize, loc: u8 },
    /// A fixup outside the data of the last data record.
    #[error("@{at} NoData")]
    NoData { at: usize },
    /// Two fixups share a byte.
    #[error("@{at} FixOverlap")]
    FixOverlap { at: usize },
    /// Data covers the location of an earlier fixup.
    #[error("@{at} DataOverFix")]
    DataOverFix { at: usize },
    /// More expanded data or more fixups than a module may have.
    #[error("@{at} TooMany")]
    TooMany { at: usize },
}

// One text is proved of an error, and not two.
impl Debug for OmfRefusal {
    fn fmt<W: Write>(&self, f: &mut Formatter<W>) -> fmt::Result {
        Display::fmt(self, f)
    }
}

//! Why a definition file is refused.

use std::fmt::{self, Debug, Display, Formatter, Write};
use thiserror::Error;

/// What is wrong with a token of a definition file.
#[derive(Clone, Copy, Error)]
pub enum DefKind {
    /// Bytes that are no token.
    #[error("Token")]
    Token,
    /// Another token stands where a statement is expected.
    #[error("Statement")]
    Statement,
    /// Another token, or the file's end, stands where the statement wants one of its own.
    #[error("Expected")]
    Expected,
    /// The number is not one that is allowed here.
    #[error("Number")]
    Number,
    /// Both words of a pair stand in one list.
    #[error("Conflict")]
    Conflict,
    /// The statement stands in the file already.
    #[error("Twice")]
    Twice,
    /// A name or a text has more than 255 bytes.
    #[error("TooLong")]
    TooLong,
}

/// The first fault of a definition file, with the line of its token. Lines count from 1; a token
/// after 2^32 - 1 lines has that line.
#[derive(Clone, Copy, Error)]
#[error("line {line} {kind}")]
pub struct DefRefusal {
    pub line: u32,
    pub kind: DefKind,
}

// One text is proved of an error, and not two.
impl Debug for DefKind {
    fn fmt<W: Write>(&self, f: &mut Formatter<W>) -> fmt::Result {
        Display::fmt(self, f)
    }
}

impl Debug for DefRefusal {
    fn fmt<W: Write>(&self, f: &mut Formatter<W>) -> fmt::Result {
        Display::fmt(self, f)
    }
}

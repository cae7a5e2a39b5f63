//! Why a file is no resource file, and why resources are not bound.

use std::fmt::{self, Debug, Display, Formatter, Write};
use thiserror::Error;

/// What is wrong with a file first; `at` is a place in it.
#[derive(Clone, Copy, Error)]
pub enum ResRefusal {
    /// A field passes the end: `at` is its first byte.
    #[error("a field at {at} passes the end")]
    Short { at: usize },
    /// A mark is not FFh.
    #[error("the mark at {at} is not FFh")]
    BadItem { at: usize },
    /// An earlier item has the type and the identifier of the item at `at`.
    #[error("the item at {at} has the type and the identifier of an earlier one")]
    Twice { at: usize },
}

/// Why resources are not bound to a module. Of several the first is told, in this order.
#[derive(Clone, Copy, Error)]
pub enum BindRefusal {
    /// The module has a resource table.
    #[error("the module has resources")]
    HasResources,
    /// There would be over 1,024 objects or over 65,536 pages.
    #[error("the module would have too many objects or pages")]
    TooMany,
    /// The file would have over 16,777,216 bytes.
    #[error("the file would be too large")]
    TooLarge,
}

// One text is proved of an error, and not two.
impl Debug for ResRefusal {
    fn fmt<W: Write>(&self, f: &mut Formatter<W>) -> fmt::Result {
        Display::fmt(self, f)
    }
}

impl Debug for BindRefusal {
    fn fmt<W: Write>(&self, f: &mut Formatter<W>) -> fmt::Result {
        Display::fmt(self, f)
    }
}

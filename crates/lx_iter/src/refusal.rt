//! Why iterated data is not expanded.

use std::fmt::{self, Debug, Display, Formatter, Write};
use thiserror::Error;

/// The first fault of iterated data, at the group that has it. Places are places in the data.
#[derive(Clone, Copy, Error)]
pub enum IterRefusal {
    /// With this group there are more bytes than a page has.
    #[error("with the group at {at} there are more bytes than a page has")]
    TooLong { at: u32 },
    /// The group passes the end of the data.
    #[error("the group at {at} passes the end of the data")]
    Short { at: u32 },
}

// One text is proved of an error, and not two.
impl Debug for IterRefusal {
    fn fmt<W: Write>(&self, f: &mut Formatter<W>) -> fmt::Result {
        Display::fmt(self, f)
    }
}

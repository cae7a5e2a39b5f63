//! Why fixup records are not read.

ghost use Rattle.std.specs.Prelude.{◌≡◌};
ghost use Rattle.lx_fixrec.specs.declared.refusal.RecRefusal.TheVariants as refusals;

use lx_fields::Short;
use std::fmt::{self, Debug, Display, Formatter, Write};
use thiserror::Error;

/// The first fault of fixup records. Places are places in the file.
#[derive(Clone, Copy, Error)]
pub enum RecRefusal {
    /// A field passes the end of the page's records.
    #[error("a field at {at} passes the end of the records")]
    Short { at: u32 },
    /// The record that begins there has a source that is not allowed, or begins a chain.
    #[error("the source of the record at {at} is not allowed")]
    BadSource { at: u32 },
    /// The offset that stands there is that of a source without a byte in its page.
    #[error("the source of the offset at {at} has no byte in its page")]
    Straddle { at: u32 },
}

impl From<Short> for RecRefusal {
    ghost from_gives = { λ s r. r ≡ refusals.Short s.at };

    fn from(short: Short) -> RecRefusal {
        RecRefusal::Short { at: short.at }
    }
}

// One text is proved of an error, and not two.
impl Debug for RecRefusal {
    fn fmt<W: Write>(&self, f: &mut Formatter<W>) -> fmt::Result {
        Display::fmt(self, f)
    }
}

//! A part of what is told.

use lx_types::{Bytes, Seq};

/// A heading and the lines under it, as bytes of any value: they are told with escapes.
#[derive(Drop)]
pub struct Part {
    pub heading: Bytes,
    pub lines: Seq<Bytes>,
}

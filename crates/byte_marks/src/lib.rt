//! Marks on the bytes of numbered rows, as the segments of an object file: a bit a byte, kept by pages of 4,096 bytes
//! of which one has a mark. A row without marks takes no memory, and no time where it is asked for one.
#![tactic(auto)]

mod marks;
mod page;
mod word;

pub use marks::ByteMarks;

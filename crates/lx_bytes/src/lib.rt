//! Fields read from a byte slice, one after another.
#![tactic(auto)]

mod cursor;
mod laws;

pub use cursor::{Cur, Short};
pub use laws::numbers_are_bytes;

//! The numbers of an LX module: a cursor over fields that stand one after the other, numbers at places of a
//! file, and the header's fields of a file that was read ("32-bit Linear eXecutable Module Format").
#![tactic(auto)]

mod fields;
mod places;
mod totals;

pub use fields::{Fields, Short};
pub use places::{Width, number};
pub use totals::{doubleword_at, header_field, table_place, word_at};

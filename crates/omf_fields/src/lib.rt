//! The fields of a record's contents, read one after another, each refusal at its place
//! ("Relocatable Object Module Format", "Record Format").
#![tactic(auto)]

mod fields;
mod laws;
mod lengths;
mod memory;

pub use fields::Fields;
pub use laws::{field_is_read, field_is_refused, length_numbers, list_item_by_item, list_of_items};
pub use lengths::{LENGTH_16, LENGTH_24, LENGTH_32, MAX_SHORT_LENGTH};
pub use memory::said;

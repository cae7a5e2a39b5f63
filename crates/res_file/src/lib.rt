//! Resource files of this profile: items with a type and an identifier, one after the other (docs/FORMATS.md, "Resource files").
#![tactic(auto)]

mod fields;
mod reading;

pub use reading::read_res;

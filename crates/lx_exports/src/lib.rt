//! The exports of an LX module as a linker writes them: their ordinals, the tables of names and the
//! entry table ("32-bit Linear eXecutable Module Format": "Entry Table", "Resident or Non-resident
//! Name Table Entry").
#![tactic(auto)]

mod bundle_writing;
mod exports;
mod name_writing;
mod ordinals;
mod slots;
mod writing;

pub use exports::{OutEntry, Tables};
pub use link_model::EntryRefusal;
pub use ordinals::ordinals_of;
pub use writing::write_tables;

//! Import libraries: what a program links with to import what a module exports (the Toolkit's IMPLIB).
#![tactic(auto)]

mod definition;
mod imports;
mod module;
mod places;

pub use definition::imports_of;
pub use imports::ImportLibrary;
pub use module::imports_of_module;
pub use omf_write::{LibraryLong, join};

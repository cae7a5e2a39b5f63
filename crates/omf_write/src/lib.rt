//! Writes object files and libraries ("Relocatable Object Module Format"). What is written is read again as
//! what was to be written.
#![tactic(auto)]

mod comments;
mod fields;
mod fixups;
mod framed;
mod import_libraries;
mod imports;
mod joining;
mod laws;
mod lent;
mod libraries;
mod objects;
mod pieces;
mod segments;
mod symbols;
mod tables;

pub use import_libraries::import_library;
pub use imports::import_module;
pub use joining::join;
pub use laws::{library_limit, writable_modules_have_files};
pub use lent::{LentEntry, LentImport};
pub use libraries::{LIBRARY_LIMIT, LibraryLong, library};
pub use objects::object;

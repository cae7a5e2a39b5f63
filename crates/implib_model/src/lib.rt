//! Import libraries: which imports a definition file and a module give to those that link with it, the object module of each
//! import, and the bytes of a library of such modules.
#![tactic(auto)]

mod library;
mod worked;

pub use library::PAGE;
pub use worked::imports_are_written;

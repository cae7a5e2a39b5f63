//! The pages of a module with their fixups, one after the other ("32-bit Linear eXecutable Module Format": "Object Page
//! Table" and "Fixup Record Table").
#![tactic(auto)]

mod pages;

pub use pages::ModulePages;

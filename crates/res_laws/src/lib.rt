//! Laws over whole bindings: the file of a module with items bound to it is read again as the module with one object more,
//! whose bytes are the items' ("32-bit Linear eXecutable Module Format": "Resource Table").
#![tactic(auto)]

mod laws;

pub use laws::{bound_files_mean, bound_modules_serve};

//! What was refused, as a value, and what is told of it: after the name of its file where it is, its kind, and its fields.
#![tactic(auto)]

mod files;
mod kinds;
mod lines;
mod links;
mod refused;

pub use kinds::{bind_kind, check_kind, def_kind, lx_kind, res_fault, session_kind};
pub use lines::file_line;
pub use refused::{Cause, FileFault, LinkFile, LinkFiles, Obstacle, Refused};

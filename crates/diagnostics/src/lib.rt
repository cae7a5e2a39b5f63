//! What `lx` says to a reader beside the answer of a command: pages of help, warnings of what was linked though it looks like a
//! slip, and how a call ended. Nothing here is put to standard output, and no answer of a command depends on it.
#![tactic(auto)]

mod definitions;
mod endings;
mod given;
mod help;
mod modules;
mod objects;
mod slips;
mod watched;

pub use endings::{Ending, tell_on};
pub use help::{Help, help_of};
pub use watched::{Look, Tell, Watched};

//! The lists of a module that was read, and the text that tells them.
#![tactic(auto)]

mod fixups;
mod listed;

pub use dump_write::dump;
pub use listed::listing;

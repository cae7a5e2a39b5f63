//! The dump of a listing, line by line.
#![tactic(auto)]

mod entries;
mod fixups;
mod objects;
mod printing;

pub use printing::dump;

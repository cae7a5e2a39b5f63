//! LX modules read from their files, with the first fault of a file that is none ("32-bit Linear
//! eXecutable Module Format").
#![tactic(auto)]

mod entries;
mod faultless;
mod fields;
mod fixups;
mod header;
mod imports;
mod names;
mod objects;
mod pages;
mod reading;
mod references;
mod tables;
mod targets;

pub use faultless::read_faultless;
pub use reading::{Unread, read_module};

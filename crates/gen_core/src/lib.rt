//! The generator: it makes modules that refer to each other, links them, fixes their pages at the bases at which a process
//! finds them, adds their words, and saves what is needed to do the same by a session.
#![tactic(auto)]

mod fixing;
mod laws;
mod linking;
mod modules;
mod names;
mod objects;
mod outputs;
mod placing;
mod references;
mod saving;
mod scripts;
mod sessions;
mod telling;

pub use outputs::Output;
pub use saving::{Made, generate};

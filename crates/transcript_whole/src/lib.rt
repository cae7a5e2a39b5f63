//! Reads a whole transcript: what it tells, or the first line with which no transcript begins.
#![tactic(auto)]

mod cutting;
mod draft;
mod following;
mod names;
mod reading;
mod whole;

pub use whole::{ReadRun, read_transcript};

//! Dumps, read line by line.
#![tactic(auto)]

mod bytes;
mod entries;
mod fixups;
mod head;
mod names;
mod objects;
mod pages;
mod reader;
mod reading;
mod words;

pub use reading::read_dump;

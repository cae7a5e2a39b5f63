//! Reads a transcript: each line of one, exactly.
#![tactic(auto)]

mod commands;
mod cursor;
mod deeds;
mod fields;
mod hex_words;
mod inner;
mod lines;
mod modules;
mod refusals;
mod replies;
mod steady;

pub use lines::read_line;
pub use modules::ModuleNames;

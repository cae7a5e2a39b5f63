//! The words of the command line: which command they are, and the name of a module that has none of its own.
#![tactic(auto)]

mod stem;
mod words;

pub use stem::stem_of;
pub use words::{CheckWords, Command, check_named, definition_of, session_named};

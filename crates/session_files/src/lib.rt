//! The files of a session: the session itself, and the modules that its module lines take or build.
#![tactic(auto)]

mod building;
mod laws;
mod module_lines;
mod reading;
mod texts;

pub use reading::{SessionFiles, read_session_files};

//! The text of a session, and the transcript of its run.
#![tactic(auto)]

mod commands;
mod entries;
mod laws;
mod lines;
mod printing;
mod sessions;
mod threads;

pub use laws::{sessions_are_writable, written_is_read};
pub use printing::{Text, print, print_answer, print_entry};
pub use session_read::read_session;
pub use sessions::write_session;
pub use threads::print_by_threads;

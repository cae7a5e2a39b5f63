//! Where the modules of a session are from, what their objects hold, and how they stand in every run.
#![tactic(auto)]

mod laws;

pub use laws::{reached_modules_stand, written_files_have_no_resources};

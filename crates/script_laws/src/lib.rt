//! How a process carries out its script command by command, and what all of them have done at the end.
#![tactic(auto)]

mod laws;

pub use laws::{
    entries_go_on, progress_begins, scripts_are_run, scripts_have_a_run, steady_lines_go_on,
    touches_go_on,
};

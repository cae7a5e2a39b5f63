//! When a text is the transcript of a run of a session, and otherwise where it first goes wrong.
#![tactic(auto)]

mod kinds;
mod laws;
mod worked;

pub use kinds::{CheckFault, CheckKind, Counts, Expected};
pub use laws::{first_wrong_is_one, nothing_wrong_is_a_run, text_fault_is_one, texts_tell_runs};

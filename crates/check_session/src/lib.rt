//! A transcript, judged whole against a session, in one thread.
#![tactic(auto)]

mod checking;
mod telling;

pub use checking::{Checked, CheckedText, check_transcript};

//! The run of a session: each script on a thread of its own over one loader, and the transcript of what happened.
#![tactic(auto)]

mod answers;
mod laws;
mod session;
mod tasks;

pub use laws::turn_limit;
pub use session::{Ran, run_session};

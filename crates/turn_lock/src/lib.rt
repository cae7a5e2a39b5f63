//! A lock that threads take in turns, in the order in which they draw tickets, round a value that has a history.
#![tactic(auto)]

mod chronicle;
mod known;
mod lock;
mod moves;
mod pass;

pub use chronicle::Chronicle;
pub use known::{Finished, Known};
pub use lock::TurnLock;
pub use pass::Pass;

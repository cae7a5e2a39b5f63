//! Processes over one loader: each takes turns at the board, and answers from its own view what needs no turn.
#![tactic(auto)]

mod answers;
mod closing;
mod deeds;
mod kept;
mod laws;
mod loader;
mod proc;
mod reading;
mod sharing;
mod touching;
mod turns;

pub use answers::{Closed, Done};
pub use kept::About;
pub use laws::ticket_limit;
pub use loader::Loader;
pub use proc::Proc;

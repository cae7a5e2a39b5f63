//! The commands of `lx` as library calls: from the words of the command line, files and a sink to the
//! status, and what was refused.
#![tactic(auto)]

mod check;
mod main_call;
mod output;
mod run;
mod tool;

pub use main_call::{Ended, lx_main};
pub use output::put_whole;
pub use tool::{Built, lx_build};

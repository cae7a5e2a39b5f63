//! Processes over the board of a loader, one step at a time: for rows that were worked by hand, and for measuring.
#![tactic(auto)]

mod alone;
mod answers;
mod cast;
mod going;
mod mapping;
mod modules;
mod steady;
mod steps;

pub use alone::Alone;
pub use cast::Cast;
pub use modules::{Shape, library};
pub use steps::{At, Step};

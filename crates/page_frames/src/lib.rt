//! Frames of pages that all processes share: a page that one thread fixes and publishes once, and that each thread
//! holds which maps it.
#![tactic(auto)]

mod frame;
mod frames;
mod keeper;
mod residence;
mod rows;
mod sharing;

pub use frames::Frames;
pub use keeper::{Keeper, KeptResidence};
pub use residence::Residence;

//! What is judged by the bytes that a loader has of modules is judged by those that their object files mean.
#![tactic(auto)]

mod laws;

pub use laws::checks_by_links;

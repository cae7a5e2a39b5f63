//! What a transcript tells: one run.
#![tactic(auto)]

mod laws;

pub use laws::texts_tell_one;

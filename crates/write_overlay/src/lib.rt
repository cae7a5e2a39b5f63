//! Bytes that were written over others: what a page holds under the writes to its object.
#![tactic(auto)]

mod layer;
mod layers;
mod overlay;
mod write;

pub use layers::Layers;
pub use overlay::lay;
pub use write::Write;

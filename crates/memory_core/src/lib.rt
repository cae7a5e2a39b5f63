//! What the objects of modules hold in memory: the first module of a library is brought in by the one entry of a fresh loader, its
//! objects and those of all that it reaches take their places, and each page is fixed there.
#![tactic(auto)]

mod bases;
mod brought;
mod objects;
mod placing;

pub use brought::{Unloaded, memory};

//! Reads module definition files (Toolkit tools reference, "Module Definition Files").
#![tactic(auto)]

mod attributes;
mod draft;
mod exports;
mod imports;
mod laws;
mod meaning;
mod names;
mod numbers;
mod reading;
mod segments;
mod statements;

pub use laws::{file_is_one, worked_files};
pub use reading::read_def;

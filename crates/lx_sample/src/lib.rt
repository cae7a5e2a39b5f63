//! LX files for tests and trial programs, written field by field, and libraries of the modules that they are. Nothing that
//! is proved rests on them.
#![tactic(auto)]

mod library;
mod one_object;
mod sample;

pub use library::library_of;
pub use one_object::ONE_OBJECT;
pub use sample::{Sample, SamplePage, file_of};

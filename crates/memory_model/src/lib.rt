//! What the objects of modules hold in memory once a process has loaded a library, or started a program.
#![tactic(auto)]

mod held;
mod laws;
mod worked;

pub use held::{MemoryRefusal, ModuleMemory, ObjectMemory, PageMemory};
pub use laws::touches_change_nothing;
pub use worked::{imports_are_held, libraries_stand_apart, modules_are_held, refusals_are_told};

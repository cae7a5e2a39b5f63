//! The bytes of a linked module at its linked bases, as the loader's own fixing makes them: the module's file is read back,
//! and each of its pages is fixed.
#![tactic(auto)]

mod alone;
mod laws;
mod linked;
mod refusals;
mod rows;

pub use laws::linked_modules_load_alone;
pub use linked::memory;
pub use refusals::ImageRefusal;

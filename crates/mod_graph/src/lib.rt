//! A library of modules: which module a name means, what a module reaches through imports, where an entry
//! point is, and whether a module can be loaded.
#![tactic(auto)]

mod entries;
mod faultless;
mod gathering;
mod health;
mod imports;
mod library;
mod names;
mod order;

pub use faultless::gather_faultless;
pub use library::{Library, Ungathered};
pub use lx_model::{EntryFault, Health, LibraryRefusal, Spot};
pub use order::is_among;

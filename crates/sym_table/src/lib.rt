//! Which modules a link chooses, and what its names mean.
#![tactic(auto)]

mod all;
mod binding;
mod choosing;
mod communals;
mod definitions;
mod firsts;
mod global_names;
mod import_keys;
mod imports;
mod locals;
mod meanings;
mod names;

pub use binding::bind;
pub use choosing::choose_by_names;
pub use imports::copied_import;
pub use link_types::Symbols;

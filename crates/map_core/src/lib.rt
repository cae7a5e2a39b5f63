//! The map of a link, from its object modules and its definition file: where its objects, segments, communals and publics
//! stand, and what it imports.
#![tactic(auto)]

mod addresses;
mod contributions;
mod lines;
mod linked;
mod mapping;
mod publics;

pub use linked::map_input;

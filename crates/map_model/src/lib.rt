//! What a map tells of a link: where its objects, segments, communals and publics stand, and what it imports.
#![tactic(auto)]

mod laws;
mod worked;

pub use laws::{links_have_maps, maps_are_one, maps_tell_all};
pub use worked::{lines_are_told, links_are_mapped};

//! The layout of a link: which logical segments and objects the chosen modules' segments form, and where each stands.
#![tactic(auto)]

mod by_number;
mod grouped;
mod in_order;
mod laid;
mod laws;
mod layout;
mod membership;
mod object_names;
mod objects;
mod ordered;
mod own_stack;
mod placing;
mod placing_groups;
mod placing_parts;
mod placing_spots;
mod refused;
mod segment_parts;
mod splits;
mod units;
mod uses;

pub use laws::{
    objects_are_numbered, origins_are_apart, parts_stand_in_order, segments_have_flags,
};
pub use layout::lay_out;
pub use link_types::Layout;

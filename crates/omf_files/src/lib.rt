//! Reads object files and libraries whole ("Relocatable Object Module Format", "Microsoft LIB Library Format").
#![tactic(auto)]

mod libraries;
mod objects;
mod start;

pub use libraries::read_library;
pub use objects::read_object;
pub use omf_frame::record_type::LIBRARY_HEADER;

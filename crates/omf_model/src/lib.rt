//! What an object file and a library mean: records, how bytes spell them, and what they say together
//! ("Relocatable Object Module Format").
//!
//! The definitions stand in specs/; the functions here run nothing, and say what holds of them.
#![tactic(auto)]

mod begun;
mod blocks;
mod comdats;
mod examples;
mod laws;
mod places;
mod turns;

pub use begun::unfinished_module;
pub use blocks::{blocks_are_measured, copies_are_computed, locations_on_blocks};
pub use comdats::{comdats_are_segments, each_comdat_refusal};
pub use examples::{
    copies_of_blocks, each_refusal, import_library, one_fixup_too_many, one_segment,
    symbols_of_each_kind, the_first_bytes, threads, whole_values,
};
pub use laws::{
    library_is_one, library_is_read, meaning_is_whole, object_is_one, object_is_read,
    one_more_record,
};
pub use places::faults_lie_in_their_record;
pub use turns::{fields_turn_by_turn, modules_turn_by_turn, records_turn_by_turn};

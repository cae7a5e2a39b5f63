//! What a link of object modules means: which modules are chosen, what their names mean, where
//! their segments stand, and which byte stands at each place.
//!
//! The pages of `specs/` are the rules; `docs/LINKING.md` leads from each rule to its page. The
//! functions here are laws over them, and plain programs that compute single numbers.
#![tactic(auto)]

mod comdats;
mod keys;
mod laws;
mod limits;
mod modules;
mod refusals;
mod symbols;
mod values;

pub use comdats::{comdats_clash_by_selection, the_first_comdat_stays};
pub use keys::{ObjectKey, Origin, SegmentKey};
pub use laws::{
    chosen_modules_are_whole, externals_have_meanings, link_numbers_are_the_formats,
    live_fixups_are_apart, live_fixups_give_their_values, modules_are_chosen_once,
    names_stand_at_their_offsets, no_data_is_dropped, no_export_is_dropped, no_fixup_is_dropped,
    no_record_is_dropped, one_segment_links_plainly, patches_stand_at_all_bases,
    segments_stand_in_objects, tables_grow_by_new_keys, values_fit_their_locations,
    what_is_kept_is_whole, without_comdats_all_is_kept,
};
pub use limits::{MAX_MEMORY, MAX_NARROW_OBJECT, MAX_NUMBER};
pub use modules::modules_at;
pub use refusals::{ComdatRefusal, EntryRefusal, FixRefusal, LayRefusal, LinkRefusal, SymRefusal};
pub use symbols::{LaidObject, Pick, SymDef};
pub use values::{alignment_len, object_flags};

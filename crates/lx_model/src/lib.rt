//! What an LX file means, and what a library of LX modules means: definitions, laws over them, and
//! worked values.
#![tactic(auto)]

pub mod header_fields;
mod laws;
mod lengths;
mod library;
mod limits;
mod numbers;
mod record_fields;
mod worked;

pub use laws::{
    bundles_are_joined, exports_are_read, faults_follow_good_parts, files_mean_one_module,
    fit_modules_have_spots, loops_come_back, one_target_more, order_is_reach, parts_are_sound,
    read_is_spelled, read_modules_are_whole, tables_go_on, written_is_read,
};
pub use lengths::{HEADER_LEN, OBJECT_ENTRY_LEN, PAGE_ENTRY_LEN, RESOURCE_ENTRY_LEN};
pub use library::{EntryFault, Health, LibraryRefusal, Spot};
pub use limits::{LONG_RUN, MAX_ENTRIES, MAX_ORDINAL};
pub use numbers::{header_fields_are, lengths_are, record_numbers, table_numbers};
pub use record_fields::{
    ADDITIVE, ALIAS, BYTE_ORDINAL, CHAIN, LISTED, MAX_LISTED, WIDE_ADDITIVE, WIDE_NUMBER,
    WIDE_TARGET,
};

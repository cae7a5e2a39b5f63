//! The order of faults in the contents of an object record, told apart from the readers: which one is the first
//! ("Relocatable Object Module Format").
//!
//! The definitions stand in specs/, a line a field or a condition; the functions here run nothing, and say that the
//! readings of `omf_model` fail exactly so.
#![tactic(auto)]

mod files;
mod laws;
mod worked;

pub use files::{contents_are_good_or_wrong, first_faults_follow_good_records};
pub use laws::{
    data_faults_follow_good_fields, faults_follow_good_fields, fixup_faults_follow_good_fields,
    name_faults_follow_good_fields,
};
pub use worked::the_first_of_two_faults;

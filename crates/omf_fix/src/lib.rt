//! The fixup records, read field by field after the records before them
//! ("Relocatable Object Module Format", "9Ch FIXUPP").
#![tactic(auto)]

mod blocks;
mod field;
mod fix_data;
mod fixupp;
mod found;
mod have;
mod location;
mod methods;
mod place;
mod starts;
mod threads;

pub use fix_data::start_at;
pub use fixupp::{fixups, fixups_marked};
pub use have::Have;

//! What the stages of a link hand each other: the symbols of a link, and its layout. The stages that make them
//! (`sym_table`, `seg_merge`) and those that read them stand on these types, and not on each other.
#![tactic(auto)]

mod items;
mod laws;
mod layout;
mod places;
mod symbols;

pub use laws::find_gives_meanings;
pub use layout::Layout;
pub use places::Places;
pub use symbols::{GlobalNames, Globals, Symbols};

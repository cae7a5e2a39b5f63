//! Fixups, data and the start of a link at their places: from what modules say to what its pages need.
#![tactic(auto)]

mod fixups;
mod goals;
mod laws;
mod pieces;
mod placing;
mod start;

pub use goals::of_symbol;
pub use laws::symbols_have_meanings;
pub use placing::{Placed, place_fixes};

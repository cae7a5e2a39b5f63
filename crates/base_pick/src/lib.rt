//! Where the objects of a module stand in a load: at their linked bases, or at the least free places.
#![tactic(auto)]

mod laws;
mod occupied;
mod picking;
mod search;
mod worked;

pub use laws::least_place_is_found;
pub use occupied::{AddressRange, Occupied};
pub use picking::{ArenaFull, pick};
pub use worked::places_worked;

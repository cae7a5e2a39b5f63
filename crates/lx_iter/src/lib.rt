//! Iterated pages of an LX module ("32-bit Linear eXecutable Module Format": "Iterated Data Pages").
#![tactic(auto)]

mod expansion;
mod laws;
mod packing;
mod refusal;

pub use expansion::expand;
pub use laws::packed_expands;
pub use packing::pack;
pub use refusal::IterRefusal;

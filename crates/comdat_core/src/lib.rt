//! COMDATs of a link ("C2h COMDAT"): of those of one name the first of the input stays, and the others are taken out.
#![tactic(auto)]

mod aside;
mod compare;
mod copies;
mod judging;
mod keeping;
mod laws;
mod taking;

pub use aside::{Aside, nothing_taken, put_back, set_aside};
pub use judging::judge;
pub use keeping::keep;
pub use laws::nothing_taken_links_alike;
pub use taking::{TakenOut, has_comdats, taken_out};

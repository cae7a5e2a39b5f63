//! The bytes of a link's objects before the loader, and the fixups that are left to it.
#![tactic(auto)]

mod fixup;
mod images;
mod location;
mod marks;
mod order;
mod pages;
mod paging;
mod painting;
mod refusal;
mod standing;
mod start;
mod tables;
mod values;

pub use fixup::{Fixup, PlacedFixup, Target};
pub use images::Images;
pub use pages::{Pages, place_pages};
pub use painting::PlacedPiece;
pub use refusal::refusal_of;
pub use standing::{data_of, standing_of};
pub use start::start_place;
pub use tables::{FirstNames, ImportTables, pair_of};

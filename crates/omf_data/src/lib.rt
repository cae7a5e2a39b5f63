//! The data records, each read after the records before it ("Relocatable Object Module Format", "A0h LEDATA",
//! "A2h LIDATA"), and what a reader of an object file keeps beside the unfinished module, so that a record is judged in
//! the time that it takes itself.
#![tactic(auto)]

mod begun;
mod ends;
mod expand;
mod iterated;
mod marks;
mod measure;
mod place;
mod straight;

pub use iterated::{lidata, lidata_marked};
pub use marks::Marks;
pub use straight::{ledata, ledata_marked};

//! The whole link: from object modules and a definition file to the file of an LX module ("32-bit Linear eXecutable
//! Module Format").
#![tactic(auto)]

mod asked;
mod auto;
mod counts;
mod entries;
mod exports;
mod failing;
mod image;
mod linking;
mod planning;
mod ranges;
mod tables;

pub use failing::failed_as;
pub use linking::{Linked, link, link_module};
pub use planning::{Plan, plan_link};

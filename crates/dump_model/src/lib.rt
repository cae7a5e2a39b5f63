//! What a dump says: the lists of a module, and the lines that tell them.
#![tactic(auto)]

mod listing;
mod worked;

pub use listing::{DumpRefusal, ListedObject, ListedPage, Listing};

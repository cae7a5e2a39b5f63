//! Laws of the places of a transcript, for who plays its items.
#![tactic(auto)]

mod laws;

pub use laws::{entries_by_refusals, faults_by_pages, mapped_pages_move, views_reply_at_places};

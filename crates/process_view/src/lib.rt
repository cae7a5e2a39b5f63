//! A process's own view of a loader: what it asks without an entry in the history is answered from there.
//!
//! The clauses say what a view answers, and not how it finds it: a body whose hints find nothing answers the same, later.
#![tactic(auto)]

mod claiming;
mod counting;
mod doing;
mod entering;
mod joining;
mod laws;
mod leaving;
mod plans;
mod purposes;
mod reading;
mod refusing;
mod spans;
mod touching;
mod view;
mod writing;

pub use laws::pages_stand;
pub use spans::{Span, span_of};
pub use view::View;

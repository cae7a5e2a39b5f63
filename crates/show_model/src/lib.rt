//! What is told of a file to a person: its lists, each under a heading with the number of its items, in printable text.
#![tactic(auto)]

mod fault;
mod laws;
mod part;
mod worked;

pub use fault::ShowFault;
pub use laws::text_is_printable;
pub use part::Part;
pub use worked::{files_are_shown, kinds_are_told_apart, texts_are_worked};

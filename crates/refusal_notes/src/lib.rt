//! What a reader is told of what was refused: what it means, where it is, and what to do. No answer of a command depends on it.
#![tactic(auto)]

mod advice;
mod chosen;
mod faults;
mod lines;
mod links;
mod looks;
mod meanings;
mod modules;
mod names;
mod notes;
mod records;

pub use advice::foreign_word;
pub use chosen::notes_on_modules;
pub use lines::Lines;
pub use looks::{is_library_of, looks_like, word_at};
pub use modules::header_of;
pub use names::{ShownName, shown};
pub use notes::{Call, notes_on};
pub use records::{Record, page_size, record_at};

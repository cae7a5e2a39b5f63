//! Laws over answers: words and files have one answer, whatever the files have, and what `image` shows of the smallest object
//! files.
#![tactic(auto)]

mod laws;

pub use laws::{
    checks_have_one_answer, runs_have_an_answer, runs_have_one_answer, shown_files_have_one_fault,
    smallest_objects_are_shown, words_have_an_answer, words_have_one_answer,
};

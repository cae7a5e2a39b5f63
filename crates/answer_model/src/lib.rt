//! What each command of `lx` answers: the words, the text and the status, and how a call ends. These are
//! definitions, in specs/; `lx_tool` meets them.
#![tactic(auto)]

mod said;
mod status;
mod worked;

pub use said::Said;
pub use status::{DONE, NO_MEMORY, READ_FAILED, REFUSED, USAGE, WRITE_FAILED, statuses_are};
pub use worked::{
    check_is_told, gen_saves_are_said, gen_words_are_known, line_files_are_asked, memory_is_told,
    run_words_are_known, runs_are_said, show_is_told,
};

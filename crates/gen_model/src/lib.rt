//! What the generator makes: modules full of references, each but the first with one to the module before it, and a session
//! that loads them. These are definitions, in specs/; `gen_core` makes what they say.
#![tactic(auto)]

mod numbers;
mod totals;
mod worked;

pub use numbers::{
    FRONT_LEN, PIECE_LEN, PIECES, PROCESSES, REFERENCES, SEGMENT_LEN, generator_numbers,
};
pub use totals::Totals;
pub use worked::{lines_are_told, modules_are_made, sessions_are_made};

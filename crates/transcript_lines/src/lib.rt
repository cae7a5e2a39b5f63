//! What a line of a transcript is, and which lines a transcript has.
#![tactic(auto)]

mod laws;
mod lines;

pub use laws::{lines_follow, texts_are_lines};
pub use lines::TranscriptLine;

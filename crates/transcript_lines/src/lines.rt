//! One line of a transcript.

use check_model::Counts;
use load_model::{Call, Deed, Fresh, Gone};
use session_model::Line;

/// What a line of a transcript tells.
#[derive(Drop)]
pub enum TranscriptLine {
    /// The first line.
    History,
    /// An entry with its number, and the process of a script. The lists of what was done are empty: their lines stand below.
    Entry {
        number: u64,
        process: u32,
        deed: Deed,
    },
    /// A residence that begins with the entry above.
    New(Fresh),
    /// A call with the entry above.
    Call(Call),
    /// A residence that ends with the entry above.
    Gone(Gone),
    /// The steady lines of the process of a script begin.
    Process(u32),
    /// A steady line.
    Steady(Line),
    /// The last line.
    Summary(Counts),
}

//! What a transcript tells.

use check_model::Counts;
use load_model::Entry;
use session_model::ScriptLines;

/// What a transcript tells: the entries of the history, the steady lines of each process, and the numbers of its last line.
#[derive(Clone, Copy)]
pub struct ToldRun<'a> {
    pub history: &'a [Entry],
    pub steady: &'a [ScriptLines],
    pub counts: Counts,
}
